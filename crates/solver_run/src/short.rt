// Areas too short: each of the eight in turn, by one entry and by four, for a book that is accepted and for calls that have other faults too.
use crate::calls;
use limits::Book;
use std::io;
use std::io::Write;
use trial::lent::{Areas, Place};
use trial::print;

// With so many entries less than stated of one area, or of none.
fn one<W: Write>(
    out: &mut W,
    text: &[u8],
    folds: usize,
    short: Option<Place>,
    less: usize,
) -> io::Result<()> {
    let mut areas = Areas::marked();
    let mut lent = areas.lend(|place, stated| place.room(stated, short, less));
    calls::solve(out, text, folds, &mut lent)
}

// Each area in turn, and none.
fn each<W: Write>(out: &mut W, title: &str, text: &[u8], folds: usize) -> io::Result<()> {
    writeln!(out, "short: {title}")?;
    for place in Place::EACH {
        one(out, text, folds, Some(place), 1)?;
        one(out, text, folds, Some(place), 4)?;
    }
    one(out, text, folds, None, 1)?;
    one(out, text, folds, None, 4)
}

pub fn all<W: Write>(out: &mut W) -> io::Result<()> {
    each(out, "a book", b"DPB 0001\np:q\nq:p r\nq:s\ns:\n", 1)?;
    each(out, "folds over 8", b"DPB 0001\na:\n", Book::FOLDS + 1)?;
    each(out, "a wrong mark", b"DPB 0002\na:\n", 0)?;
    each(out, "a line at fault", b"DPB 0001\na\n", Book::FOLDS)?;
    let long = [0; Book::TEXT_BYTES + 1];
    each(out, "text too long, folds over 8", &long, Book::FOLDS + 1)
}
