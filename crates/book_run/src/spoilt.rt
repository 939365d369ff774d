// The tables of a small book with one entry, count or length changed, and what the writer answers; the reader and the look-up on areas
// that are too short.
use crate::whole;
use limits::{Book, Counts};
use scan::table::folding;
use std::io;
use std::io::Write;
use trial::lent::{LentTables, Marked, Place, TEXT, Tables};
use trial::{lent, print};

// Writes into the first bytes of an area of its own, and prints number, length and a checksum of the area.
fn written_in<W: Write>(
    out: &mut W,
    tables: &LentTables,
    book: Counts,
    room: usize,
) -> io::Result<()> {
    let mut text = [u8::MARK; TEXT];
    let answer = tables.write(&folding(), book, lent::first(&mut text, room));
    print::counted(out, &answer)?;
    print::total(out, &text)?;
    writeln!(out)
}

fn written<W: Write>(out: &mut W, tables: &LentTables, book: Counts) -> io::Result<()> {
    written_in(out, tables, book, TEXT)
}

fn set<E: Copy>(area: &mut [E], at: usize, value: E) {
    if let Some(entry) = area.get_mut(at) {
        *entry = value;
    }
}

// Of the small book: names p q r s, four rules.
const SMALL: Counts = Counts { names: 4, rules: 4 };

fn small() -> Tables {
    let mut tables = Tables::marked();
    let _ = tables
        .whole()
        .read(b"DPB 0001\np:q\nq:p r\nq:s\ns:\n", &folding());
    tables
}

// With other counts.
fn counts<W: Write>(out: &mut W, names: usize, rules: usize) -> io::Result<()> {
    let mut tables = small();
    written(out, &tables.whole(), Counts { names, rules })
}

// With an entry changed.
fn spoilt<W: Write, F: FnOnce(&mut Tables)>(out: &mut W, spoil: F) -> io::Result<()>
    requires { F.IsAlwaysCallable spoil }
{
    let mut tables = small();
    spoil(&mut tables);
    written(out, &tables.whole(), SMALL)
}

fn spelling<W: Write>(out: &mut W, at: usize, value: u8) -> io::Result<()> {
    spoilt(out, |tables| set(&mut tables.spellings, at, value))
}

fn head<W: Write>(out: &mut W, at: usize, value: u16) -> io::Result<()> {
    spoilt(out, |tables| set(&mut tables.heads, at, value))
}

fn body<W: Write>(out: &mut W, at: usize, value: u64) -> io::Result<()> {
    spoilt(out, |tables| set(&mut tables.bodies, at, value))
}

// With an area of one entry less than stated, or none, for the writer and for the reader of another book.
fn short<W: Write>(out: &mut W, short: Option<Place>) -> io::Result<()> {
    let mut tables = small();
    let mut lent = tables.lend(|place, stated| place.room(stated, short, 1));
    written(out, &lent, SMALL)?;
    whole::judge(out, b"DPB 0001\na:\n", &mut lent)?;
    Ok(())
}

// With a text area of this length.
fn room<W: Write>(out: &mut W, d: usize) -> io::Result<()> {
    let mut tables = small();
    written_in(out, &tables.whole(), SMALL, d)
}

// A name by number, from a name area of this length, in brackets.
fn look_up<W: Write>(out: &mut W, size: usize, n: usize, a: usize) -> io::Result<()> {
    let mut tables = small();
    let spellings = lent::first(&mut tables.spellings, size);
    out.write_all(b"[")?;
    out.write_all(lexicon::look_up::look_up(spellings, n, a))?;
    print::line(out, b"]")
}

// As many names as there is room for, each of the full length, all different in their first two bytes; m rules with all names as body
// and name 0 as head.
fn long_tables(m: usize) -> Tables {
    let mut tables = Tables::marked();
    tables.spellings.fill(b'a');
    tables.heads.fill(0);
    tables.bodies.fill(0);
    for (name, a) in tables.spellings.chunks_mut(Book::NAME_BYTES).zip(0..=127u8) {
        set(name, 0, b'a' + a % 16);
        set(name, 1, b'a' + a / 16);
    }
    tables.whole().fill_bodies(m);
    tables
}

fn long_book(rules: usize) -> Counts {
    Counts {
        names: Book::NAMES,
        rules,
    }
}

// Those tables with `last` in the last byte of name 0.
fn long<W: Write>(out: &mut W, m: usize, last: u8) -> io::Result<()> {
    let mut tables = long_tables(m);
    set(&mut tables.spellings, Book::NAME_BYTES - 1, last);
    written(out, &tables.whole(), long_book(m))
}

// The last bytes of the name that ends there become padding.
fn shorten(spellings: &mut [u8], end: usize, less: usize) {
    if let Some(last) = spellings.get_mut(end.saturating_sub(less)..end) {
        last.fill(0);
    }
}

// Three such rules and one of the names 1 to 109, with the last bytes of names 1 and 127 cut off.
fn cut<W: Write>(out: &mut W, one: usize, other: usize) -> io::Result<()> {
    let mut tables = long_tables(3);
    shorten(&mut tables.spellings, 2 * Book::NAME_BYTES, one);
    shorten(&mut tables.spellings, Book::NAME_AREA, other);
    set(&mut tables.bodies, 3 * Book::BODY_WORDS, u64::MAX - 1);
    set(&mut tables.bodies, 3 * Book::BODY_WORDS + 1, (1 << 46) - 1);
    written(out, &tables.whole(), long_book(4))
}

// A short name area and a text that would be refused for itself.
fn first_cause<W: Write>(out: &mut W, text: &[u8]) -> io::Result<()> {
    let mut tables = Tables::marked();
    let mut lent = tables.lend(|place, stated| place.room(stated, Some(Place::Spellings), 1));
    whole::judge(out, text, &mut lent)?;
    Ok(())
}

fn writer_counts<W: Write>(out: &mut W) -> io::Result<()> {
    for (names, rules) in [
        (4, 4),
        (4, 5),
        (5, 4),
        (3, 4),
        (4, 3),
        (Book::NAMES + 1, 4),
        (4, Book::RULES + 1),
    ] {
        counts(out, names, rules)?;
    }
    Ok(())
}

fn writer_names<W: Write>(out: &mut W) -> io::Result<()> {
    for (at, value) in [
        (0, b'P'),
        (0, 0),
        (0, b':'),
        (1, b'p'),
        (2, b'p'),
        (Book::NAME_BYTES, b'p'),
        (Book::NAME_AREA - 1, b'a'),
        (Book::NAME_AREA, b'a'),
    ] {
        spelling(out, at, value)?;
    }
    Ok(())
}

fn writer_heads<W: Write>(out: &mut W) -> io::Result<()> {
    for (at, value) in [
        (0, 1),
        (1, 2),
        (2, 4),
        (3, 0),
        (4, 1),
        (Book::RULES - 1, 1),
        (Book::RULES, 1),
    ] {
        head(out, at, value)?;
    }
    Ok(())
}

fn writer_bodies<W: Write>(out: &mut W) -> io::Result<()> {
    for (at, value) in [
        (0, 4),
        (0, 18),
        (1, 1),
        (Book::BODY_WORDS, 1),
        (4 * Book::BODY_WORDS, 1),
        (Book::BODY_AREA - 1, 1),
        (Book::BODY_AREA, 1),
    ] {
        body(out, at, value)?;
    }
    Ok(())
}

fn short_areas<W: Write>(out: &mut W) -> io::Result<()> {
    for place in [
        None,
        Some(Place::Spellings),
        Some(Place::Heads),
        Some(Place::Bodies),
    ] {
        short(out, place)?;
    }
    room(out, Book::TEXT_BYTES)?;
    room(out, Book::TEXT_BYTES - 1)
}

fn long_texts<W: Write>(out: &mut W) -> io::Result<()> {
    for (m, last) in [(3, b'a'), (4, b'a'), (4, b'A')] {
        long(out, m, last)?;
    }
    cut(out, 2, 6)?;
    cut(out, 4, 3)
}

fn first_causes<W: Write>(out: &mut W) -> io::Result<()> {
    first_cause(out, &[0; Book::TEXT_BYTES + 1])?;
    first_cause(out, b"DPB 0002\n")
}

fn look_ups<W: Write>(out: &mut W) -> io::Result<()> {
    for (size, n, a) in [
        (Book::NAME_AREA, 4, 0),
        (Book::NAME_AREA, 4, 3),
        (Book::NAME_AREA, 4, 4),
        (Book::NAME_AREA, Book::NAMES, 4),
        (Book::NAME_AREA, Book::NAMES + 1, 0),
        (Book::NAME_AREA - 1, 4, 0),
    ] {
        look_up(out, size, n, a)?;
    }
    Ok(())
}

pub fn all<W: Write>(out: &mut W) -> io::Result<()> {
    writer_counts(out)?;
    writer_names(out)?;
    writer_heads(out)?;
    writer_bodies(out)?;
    short_areas(out)?;
    long_texts(out)?;
    first_causes(out)?;
    look_ups(out)
}
