// Runs the row functions on rows of three words in a larger area with marks around them, and prints what they find.
#![tactic(auto)]

ghost use Rattle.std.specs.Prelude.{◌*◌, ◌^◌, ◌<◌, length};
ghost use Rattle.limits.specs.Book.{word_bits};

use rows::members::Members;
use rows::row;
use std::fmt::Display;
use std::io;
use std::io::{BufWriter, Write};

// Each on a line of its own.
fn lines<W: Write, T: Display>(out: &mut W, values: &[T]) -> io::Result<()> {
    for value in values {
        writeln!(out, "{value}")?;
    }
    Ok(())
}

fn answers<W: Write>(out: &mut W, answers: &[bool]) -> io::Result<()> {
    for yes in answers {
        writeln!(out, "{}", if *yes { "yes" } else { "no" })?;
    }
    Ok(())
}

// Prints the atoms of a row, rising.
fn show<W: Write>(out: &mut W, words: &[u64]) -> io::Result<()>
    requires { length words.now * word_bits < 2 ^ 32 }
{
    for a in Members::of(words, 0) {
        writeln!(out, "{a}")?;
    }
    Ok(())
}

// Atoms at the ends of words join a row that stands between two marks.
fn inserted<W: Write>(out: &mut W) -> io::Result<()> {
    let mut area = [5u64, 0, 0, 0, 7];
    for a in [0, 63, 64, 191] {
        row::insert(&mut area[1..4], a);
    }
    show(out, &area[1..4])?;
    lines(out, &[area[0], area[4]])
}

// A row joins another, and the words around it stay.
fn united<W: Write>(out: &mut W) -> io::Result<()> {
    let mut area = [5u64, 4, 0, 7];
    row::unite(&mut area[1..3], &[6, 8]);
    show(out, &area[1..3])?;
    lines(out, &[area[0], area[3]])
}

// Each test where it holds and where it fails by one bit.
fn tested<W: Write>(out: &mut W) -> io::Result<()> {
    let (few, more) = ([1, 2], [3, 2]);
    answers(
        out,
        &[
            row::member(&more, 65),
            row::member(&more, 64),
            row::within(&few, &more),
            row::within(&more, &few),
        ],
    )
}

fn compared<W: Write>(out: &mut W) -> io::Result<()> {
    let (few, more, other) = ([1, 2], [3, 2], [4, 0]);
    answers(
        out,
        &[
            row::meets(&few, &more),
            row::meets(&few, &other),
            row::equal(&few[1..], &more[1..]),
            row::equal(&few, &more),
        ],
    )
}

fn counted<W: Write>(out: &mut W) -> io::Result<()> {
    let area = [1, u64::MAX, 0, 3];
    answers(out, &[row::empty(&area[2..3]), row::empty(&area[1..3])])?;
    lines(out, &[row::count(&area[..3])])
}

// A tail is cleared, and what lies before and after it stays.
fn cleared<W: Write>(out: &mut W) -> io::Result<()> {
    let mut area = [1u64, 2, 3, 4, 5];
    rows::clear::clear(&mut area, 1, 4);
    lines(out, &[area[0], area[1], area[3], area[4]])
}

fn cleared_bytes<W: Write>(out: &mut W) -> io::Result<()> {
    let mut area = [1u8, 2, 3, 4];
    rows::clear::clear(&mut area, 1, 3);
    lines(out, &[area[0], area[2], area[3]])
}

fn cleared_heads<W: Write>(out: &mut W) -> io::Result<()> {
    let mut area = [1u16, 2, 3, 4];
    rows::clear::clear(&mut area, 2, 4);
    lines(out, &[area[1], area[2], area[3]])
}

fn main(rt: HostRuntime) -> io::Result<()> {
    let mut out = BufWriter::new(rt.alloc(), io::writer(&rt))?;
    inserted(&mut out)?;
    united(&mut out)?;
    tested(&mut out)?;
    compared(&mut out)?;
    counted(&mut out)?;
    cleared(&mut out)?;
    cleared_bytes(&mut out)?;
    cleared_heads(&mut out)?;
    out.flush()
}
