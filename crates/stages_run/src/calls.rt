// The three calls, each with what is printed of it: the answer, a checksum of each area that it was lent, and the rows of few atoms
// whole.
use crate::print::rows;
use limits::Counts;
use std::io;
use std::io::Write;
use trial::lent::LentTables;
use trial::print;

fn totals<W: Write>(out: &mut W, all: &[u64], any: &[u64], model: &[u64]) -> io::Result<()> {
    print::total(out, all)?;
    print::total(out, any)?;
    print::total(out, model)?;
    writeln!(out)
}

// Whether the tables are accepted.
pub fn standardise<W: Write>(
    out: &mut W,
    tables: &LentTables,
    book: Counts,
    all: &mut [u64],
    any: &mut [u64],
    model: &mut [u64],
) -> io::Result<bool> {
    let answer = standard::standardise(tables.heads, tables.bodies, book, all, any, model);
    match &answer {
        Ok(r) => write!(out, "standard 0 {} {} {}", r.atoms, r.c, r.h)?,
        Err(cause) => write!(out, "standard {} 0 0 0", cause.number())?,
    }
    print::rules(out, tables)?;
    totals(out, all, any, model)?;
    let Ok(r) = answer else {
        return Ok(false);
    };
    rows(out, r.atoms, "all", all, r.atoms)?;
    rows(out, r.atoms, "any", any, r.atoms)?;
    rows(out, r.atoms, "start", model, 1)?;
    Ok(true)
}

pub fn fold<W: Write>(
    out: &mut W,
    all: &mut [u64],
    spare: &mut [u64],
    count: usize,
    k: usize,
) -> io::Result<()> {
    let answer = unfold::fold(all, spare, count, k);
    write!(out, "fold {k} {}", print::number(&answer))?;
    print::total(out, all)?;
    print::total(out, spare)?;
    writeln!(out)?;
    if answer.is_ok() {
        rows(out, count, "all", all, count)?;
    }
    Ok(())
}

pub fn run<W: Write>(
    out: &mut W,
    all: &[u64],
    any: &[u64],
    model: &mut [u64],
    count: usize,
) -> io::Result<()> {
    let answer = rounds::run(all, any, model, count);
    write!(out, "rounds ")?;
    print::counted(out, &answer)?;
    totals(out, all, any, model)?;
    if answer.is_ok() {
        rows(out, count, "last", model, 1)?;
    }
    Ok(())
}
