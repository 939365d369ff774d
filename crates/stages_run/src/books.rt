// A book: standardised, and from there folded and run for each number of folds.
use crate::calls;
use limits::{Book, Counts};
use scan::table::folding;
use std::io;
use std::io::Write;
use trial::lent::{LentTables, Rows, Tables};

// Prints what standardising answers and leaves; whether it accepts.
fn standardised<W: Write>(out: &mut W, tables: &LentTables, book: Counts) -> io::Result<bool> {
    let mut rows = Rows::marked();
    calls::standardise(
        out,
        tables,
        book,
        &mut rows.all,
        &mut rows.any,
        &mut rows.model,
    )
}

// k folds of rows that are standardised anew, and the rounds.
fn folded<W: Write>(out: &mut W, tables: &LentTables, book: Counts, k: usize) -> io::Result<()> {
    let mut rows = Rows::marked();
    let answer = standard::standardise(
        tables.heads,
        tables.bodies,
        book,
        &mut rows.all,
        &mut rows.any,
        &mut rows.model,
    );
    let atoms = answer.map_or(0, |r| r.atoms);
    calls::fold(out, &mut rows.all, &mut rows.spare, atoms, k)?;
    calls::run(out, &rows.all, &rows.any, &mut rows.model, atoms)
}

pub fn show<W: Write>(out: &mut W, text: &[u8]) -> io::Result<()> {
    let mut tables = Tables::marked();
    let mut lent = tables.whole();
    let Ok(book) = lent.read(text, &folding()) else {
        return writeln!(out, "no book");
    };
    if standardised(out, &lent, book)? {
        for k in 0..=Book::FOLDS {
            folded(out, &lent, book, k)?;
        }
    }
    Ok(())
}
