// Standardises, folds and runs each book that an argument names, between marks past the stated sizes, and prints what is answered and left.
// Then the calls on tables and rows that are spoilt, short or of no book, as files of cases give them.
#![tactic(auto)]

mod books;
mod calls;
mod cases;
mod print;

use std::io;
use std::io::{BufWriter, Write};
use trial::files;
use trial::lines::titled;

fn show<W: Write>(out: &mut W, text: &[u8]) -> io::Result<()> {
    if titled(text) {
        cases::each(out, text)
    } else {
        books::show(out, text)
    }
}

fn main(rt: HostRuntime) -> io::Result<()> {
    let mut out = BufWriter::new(rt.alloc(), io::writer(&rt))?;
    files::each(&rt, &mut out, |out, _, text| show(out, text))?;
    out.flush()
}
