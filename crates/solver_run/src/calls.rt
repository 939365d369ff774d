// The solver and the plain route, each with what is printed of it: the answer, a checksum of each area that it was lent, and the listing
// of few atoms whole.
use limits::Book;
use scan::table::folding;
use std::io;
use std::io::Write;
use trial::lent::{Lent, Rows, Tables};
use trial::{calls, print};

// The listing is printed at no fold and at eight.
pub fn solve<W: Write>(out: &mut W, text: &[u8], folds: usize, lent: &mut Lent) -> io::Result<()> {
    write!(out, "solve {folds} ")?;
    let r = calls::solve(out, text, &folding(), folds, lent)?;
    if folds % Book::FOLDS == 0 {
        print::listing(out, &r, lent)?;
    }
    Ok(())
}

// The plain route on the tables of a text that the reader accepts; the model's words are printed too.
pub fn plainly<W: Write>(out: &mut W, text: &[u8]) -> io::Result<()> {
    let mut tables = Tables::marked();
    let mut lent = tables.whole();
    if let Ok(book) = lent.read(text, &folding()) {
        let mut model = Rows::marked().model;
        calls::plainly(out, &lent, book, &mut model, Book::ROW_WORDS)?;
    }
    Ok(())
}
