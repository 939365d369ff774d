// Makes a call many times for each argument, so that it is timed from outside (bench/letters). The first byte of an argument is the case.
#![tactic(auto)]

ghost use Rattle.std.specs.Prelude.{◌≤◌};

use scan::table::fill;
use std::io::{BufWriter, Write};
use std::{env, io};
use trial::lent::{Tables, letters};

// An odd number, so that a number returned each time is what is left of them.
const CALLS: usize = 65537;

const BOOK: [u8; 26] = *b"DPB 0001\np:q\nq:p r\nq:s\ns:\n";

// The reader with the first entries of a table. The last entry takes the two values in turn: another one than in the call before, so that no call
// can be left out for being the same. The numbers returned, joined by exclusive or.
fn read(size: usize, last: [u8; 2]) -> usize
    requires { size ≤ 256 }
{
    let mut table = scan::table::folding();
    let mut tables = Tables::marked();
    let mut lent = tables.whole();
    let mut joined = 0;
    for i in 0..CALLS {
        table[255] = last[i % 2];
        if let Err(refused) = lent.read(&BOOK, &table[..size]) {
            joined ^= refused.cause.number();
        }
    }
    joined
}

// The entry of one of the capital letters, another one than in the call before, is taken out, so that no call can be left out; the entries
// joined by exclusive or.
fn refill<F: Fn(&mut [u8])>(fill: F) -> usize
    requires { F.IsAlwaysCallable fill }
{
    let mut table = scan::table::folding();
    let mut joined = 0;
    for i in 0..CALLS {
        fill(&mut table);
        let at = usize::from(b'A') + i % 26;
        joined ^= usize::from(table[at]);
        table[at] = 0;
    }
    joined
}

fn result(letter: u8) -> usize {
    match letter {
        // A table that is too short, judged no further.
        b's' => read(255, [0, 255]),
        // One refused for its last entry, which is judged whole and with which nothing is read.
        b'l' => read(256, [1, 2]),
        // An area filled with our letters.
        b'f' => refill(|table| {
            let _ = fill(table);
        }),
        // Entry by entry.
        b'e' => refill(|table| letters(table)),
        // A table that passes, with which the book is read whole.
        _ => read(256, [0, 255]),
    }
}

fn main(rt: HostRuntime) -> io::Result<()> {
    let mut out = BufWriter::new(rt.alloc(), io::writer(&rt))?;
    for name in env::args(&rt)?.skip(1) {
        if let Some(letter) = name.as_bytes().first() {
            writeln!(out, "{}", result(*letter))?;
        }
    }
    out.flush()
}
