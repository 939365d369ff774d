// A table with each entry in turn made 0, its own number and another letter, where it is not: what the reader and the solver answer under it, and
// the writer of the book as it is read under the table unchanged.
use crate::calls;
use crate::calls::Change;
use crate::cases::Call;
use limits::Book;
use std::io;
use std::io::Write;

fn one<W: Write>(out: &mut W, call: &Call, b: u8, value: u8) -> io::Result<()> {
    let mut changed = [0; Book::LETTER_BYTES];
    let shared = call.table.len().min(changed.len());
    changed[..shared].copy_from_slice(&call.table[..shared]);
    changed[usize::from(b)] = value;
    writeln!(out, "{b} {value}")?;
    calls::read(out, call.text, &changed, Change::Brief)?;
    calls::solve(out, call.text, &changed, call.folds, Change::Brief)?;
    calls::rewrite(out, call.text, call.table, &changed, Change::Brief)
}

// Other entries for byte b.
fn byte<W: Write>(out: &mut W, call: &Call, b: u8) -> io::Result<()> {
    let entry = call.table.get(usize::from(b)).copied().unwrap_or(0);
    let letter = if entry == b'q' { b'r' } else { b'q' };
    for value in [0, b, letter] {
        if value != entry {
            one(out, call, b, value)?;
        }
    }
    Ok(())
}

pub fn each<W: Write>(out: &mut W, call: &Call) -> io::Result<()> {
    for b in 0..=u8::MAX {
        byte(out, call, b)?;
    }
    Ok(())
}
