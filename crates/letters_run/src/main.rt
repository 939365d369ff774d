// Books under folding tables that are not ours, as files of cases bring them: read, solved, written and read again, between marks past the stated
// sizes; what is answered and left is printed. Then tables changed in one entry each, and what the calls answer; and our own table, as it is made.
#![tactic(auto)]

mod calls;
mod cases;
mod ours;
mod sweep;

use std::io;
use std::io::{BufWriter, Write};
use trial::{files, print};

fn show<W: Write>(out: &mut W, path: &str, file: &[u8]) -> io::Result<()> {
    for case in cases::Cases::of(file) {
        print::line(out, case.title)?;
        match case.call {
            Some(call) if files::swept(path) => sweep::each(out, &call)?,
            Some(call) => cases::show(out, &call)?,
            None => {}
        }
    }
    Ok(())
}

fn main(rt: HostRuntime) -> io::Result<()> {
    let mut out = BufWriter::new(rt.alloc(), io::writer(&rt))?;
    files::each(&rt, &mut out, |out, path, file| show(out, path, file))?;
    out.flush()
}
