// Whole books: read, shown, written and read again.
use limits::Counts;
use scan::table::folding;
use std::io;
use std::io::Write;
use trial::lent::{LentTables, Marked, TEXT, Tables};
use trial::{calls, print};

// Texts up to this long are printed whole.
const SHORT: usize = 600;

// Reads into areas that are lent, by our letters, and prints the answer and a checksum of each; the counts of a book that is accepted.
pub fn judge<W: Write>(
    out: &mut W,
    text: &[u8],
    tables: &mut LentTables,
) -> io::Result<Option<Counts>> {
    calls::read(out, text, &folding(), tables)
}

// Reads into areas of its own.
fn judge_apart<W: Write>(out: &mut W, text: &[u8]) -> io::Result<()> {
    let mut tables = Tables::marked();
    judge(out, text, &mut tables.whole())?;
    Ok(())
}

// Each name by number, and the empty part past the last.
fn look_up<W: Write>(out: &mut W, spellings: &[u8], n: usize) -> io::Result<()> {
    for a in 0..=n {
        print::line(out, lexicon::look_up::look_up(spellings, n, a))?;
    }
    Ok(())
}

// A text just written, of n names: prints it with its names where it is short, and reads it again.
fn reread<W: Write>(out: &mut W, text: &[u8], spellings: &[u8], n: usize) -> io::Result<()> {
    if text.len() <= SHORT {
        out.write_all(text)?;
        look_up(out, spellings, n)?;
    }
    judge_apart(out, text)
}

fn rewrite<W: Write>(out: &mut W, tables: &LentTables, book: Counts) -> io::Result<()> {
    let mut text = [u8::MARK; TEXT];
    let size = tables.write(&folding(), book, &mut text).unwrap_or(0);
    write!(out, "{size}")?;
    print::total(out, &text)?;
    writeln!(out)?;
    if let Some(written) = text.get(..size) {
        reread(out, written, tables.spellings, book.names)?;
    }
    Ok(())
}

pub fn show<W: Write>(out: &mut W, text: &[u8]) -> io::Result<()> {
    let mut tables = Tables::marked();
    let mut lent = tables.whole();
    if let Some(book) = judge(out, text, &mut lent)? {
        rewrite(out, &lent, book)?;
    }
    Ok(())
}

// Reads the text with v in place of each `?`, where it is short.
fn with_byte<W: Write>(out: &mut W, text: &[u8], v: u8) -> io::Result<()> {
    let mut area = [0; 64];
    let Some(copy) = area.get_mut(..text.len()) else {
        return Ok(());
    };
    copy.copy_from_slice(text);
    for byte in copy.iter_mut().filter(|b| **b == b'?') {
        *byte = v;
    }
    judge_apart(out, copy)
}

pub fn sweep<W: Write>(out: &mut W, text: &[u8]) -> io::Result<()> {
    for v in 0..=u8::MAX {
        with_byte(out, text, v)?;
    }
    Ok(())
}
