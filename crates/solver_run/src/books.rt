// A book: solved for each number of folds and for one too many, and taken the plain route.
use crate::calls;
use limits::Book;
use std::io;
use std::io::Write;
use trial::lent::Areas;
use trial::lines::Parts;

// Each time in areas of its own: of the stated sizes, and in longer ones.
pub fn show<W: Write>(out: &mut W, text: &[u8]) -> io::Result<()> {
    for folds in 0..=Book::FOLDS + 1 {
        let longer = folds % 2 == 1;
        let mut areas = Areas::marked();
        let mut lent = areas.lend(|_, stated| if longer { usize::MAX } else { stated });
        calls::solve(out, text, folds, &mut lent)?;
    }
    calls::plainly(out, text)
}

// Files of many short books, each after a line that begins with `#`. All are solved in the same areas: each call finds what the one before it left.
pub fn many<W: Write>(out: &mut W, text: &[u8]) -> io::Result<()> {
    let mut areas = Areas::marked();
    let mut lent = areas.lend(|_, _| usize::MAX);
    for part in Parts::of(text) {
        out.write_all(part.title)?;
        for folds in 0..=Book::FOLDS + 1 {
            calls::solve(out, part.body, folds, &mut lent)?;
        }
        calls::plainly(out, part.body)?;
    }
    Ok(())
}
