// Solves each book that an argument names and takes it the plain route, and prints what is answered and left. Then calls with areas too short.
#![tactic(auto)]

mod books;
mod calls;
mod short;

use std::io;
use std::io::{BufWriter, Write};
use trial::files;
use trial::lines::titled;

fn show<W: Write>(out: &mut W, text: &[u8]) -> io::Result<()> {
    if titled(text) {
        books::many(out, text)
    } else {
        books::show(out, text)
    }
}

fn main(rt: HostRuntime) -> io::Result<()> {
    let mut out = BufWriter::new(rt.alloc(), io::writer(&rt))?;
    files::each(&rt, &mut out, |out, _, text| show(out, text))?;
    short::all(&mut out)?;
    out.flush()
}
