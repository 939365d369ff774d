// The calls under a lent table, each in areas of its own, and what is printed of it: the answer, a checksum of each area that is lent, and listings
// and texts that are short.
use limits::Counts;
use std::io;
use std::io::Write;
use trial::lent::{Areas, LentTables, Marked, Place, TEXT, Tables};
use trial::{calls, lent, print};

// What is changed in a case.
#[derive(Clone, Copy, PartialEq, Eq)]
pub enum Change {
    Nothing,
    // An area is lent one entry short.
    Short(Place),
    // So is the writer's text.
    ShortText,
    // Each body is made that of all names before it is written.
    FullBodies,
    // Nothing is, but neither listing nor text is printed.
    Brief,
    // The case has no book: it is one of `ours`.
    Filled,
}

impl From<u8> for Change {
    fn from(number: u8) -> Change {
        match number {
            1 => Change::Short(Place::Spellings),
            2 => Change::Short(Place::Heads),
            3 => Change::Short(Place::Bodies),
            4 => Change::Short(Place::All),
            5 => Change::Short(Place::Any),
            6 => Change::Short(Place::Spare),
            7 => Change::Short(Place::Model),
            8 => Change::Short(Place::Listing),
            9 => Change::ShortText,
            10 => Change::FullBodies,
            11 => Change::Brief,
            12 => Change::Filled,
            _ => Change::Nothing,
        }
    }
}

impl Change {
    // How many entries are lent of an area with this stated size. `Place::room` does not serve: what is not short is lent whole here, past the stated
    // size too.
    fn room(self, place: Place, stated: usize) -> usize {
        if self == Change::Short(place) {
            stated.saturating_sub(1)
        } else {
            usize::MAX
        }
    }

    fn text_room(self) -> usize {
        if self == Change::ShortText {
            TEXT - lent::GUARD - 1
        } else {
            TEXT
        }
    }
}

// Texts up to this long are printed whole.
const SHORT: usize = 300;

// Text and table are not taken as one: in a sweep the table is another than the call's, and what is read again is a text just written.
pub fn read<W: Write>(out: &mut W, text: &[u8], table: &[u8], change: Change) -> io::Result<()> {
    let mut tables = Tables::marked();
    let mut lent = tables.lend(|place, stated| change.room(place, stated));
    write!(out, "read ")?;
    calls::read(out, text, table, &mut lent)?;
    Ok(())
}

pub fn solve<W: Write>(
    out: &mut W,
    text: &[u8],
    table: &[u8],
    folds: usize,
    change: Change,
) -> io::Result<()> {
    let mut areas = Areas::marked();
    let mut lent = areas.lend(|place, stated| change.room(place, stated));
    write!(out, "solve ")?;
    let r = calls::solve(out, text, table, folds, &mut lent)?;
    if change != Change::Brief {
        print::listing(out, &r, &lent)?;
    }
    Ok(())
}

// A text just written under the table: read again. This and the writing are not one with those of book_run, which print names between the text and
// the reading, less in front and a checksum of more: a function for both would take each as a parameter.
fn reread<W: Write>(out: &mut W, text: &[u8], table: &[u8]) -> io::Result<()> {
    if text.len() <= SHORT {
        out.write_all(text)?;
    }
    read(out, text, table, Change::Nothing)
}

fn write<W: Write>(
    out: &mut W,
    tables: &LentTables,
    table: &[u8],
    book: Counts,
    change: Change,
) -> io::Result<()> {
    let mut text = [u8::MARK; TEXT];
    let to = lent::first(&mut text, change.text_room());
    let answer = tables.write(table, book, to);
    write!(out, "write ")?;
    print::counted(out, &answer)?;
    print::total(out, to)?;
    writeln!(out)?;
    if let Ok(size) = answer
        && change != Change::Brief
    {
        reread(out, lent::first(&mut text, size), table)?;
    }
    Ok(())
}

// Tables read under one table, where they are, and written under the other.
pub fn rewrite<W: Write>(
    out: &mut W,
    text: &[u8],
    table: &[u8],
    other: &[u8],
    change: Change,
) -> io::Result<()> {
    let mut tables = Tables::marked();
    let Ok(book) = tables.whole().read(text, table) else {
        return Ok(());
    };
    if change == Change::FullBodies {
        tables.whole().fill_bodies(book.rules);
    }
    let lent = tables.lend(|place, stated| change.room(place, stated));
    write(out, &lent, other, book, change)
}
