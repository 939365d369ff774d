// Reads each book that an argument names, between marks past the stated sizes, and prints what was answered and left; writes the
// tables of a book that is accepted, looks its names up and reads the text again. Then tables and areas spoilt in one place each.
#![tactic(auto)]

mod spoilt;
mod whole;

use std::io;
use std::io::{BufWriter, Write};
use trial::files;

// In a file to be swept, a book, each `?` takes every byte value.
fn show<W: Write>(out: &mut W, path: &str, text: &[u8]) -> io::Result<()> {
    if files::swept(path) {
        whole::sweep(out, text)
    } else {
        whole::show(out, text)
    }
}

fn main(rt: HostRuntime) -> io::Result<()> {
    let mut out = BufWriter::new(rt.alloc(), io::writer(&rt))?;
    files::each(&rt, &mut out, |out, path, text| show(out, path, text))?;
    spoilt::all(&mut out)?;
    out.flush()
}
