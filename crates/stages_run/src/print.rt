// Rows as the atoms in them.
use limits::Book;
use rows::members::Members;
use std::io;
use std::io::Write;
use trial::print;

// Its atoms, those past the atom count too.
fn row<W: Write>(out: &mut W, words: &[u64; Book::ROW_WORDS]) -> io::Result<()> {
    for a in Members::of(words, 0) {
        write!(out, " {a}")?;
    }
    Ok(())
}

// The first rows of an area, which has so many where a call accepted it, with a stroke between two, where a call accepted few atoms.
pub fn rows<W: Write>(
    out: &mut W,
    atoms: usize,
    title: &str,
    area: &[u64],
    count: usize,
) -> io::Result<()> {
    if atoms > print::FEW {
        return Ok(());
    }
    write!(out, "{title}")?;
    for (i, words) in area.chunks(Book::ROW_WORDS).take(count).enumerate() {
        if i > 0 {
            write!(out, " /")?;
        }
        if let Some(words) = words.first_chunk::<{ Book::ROW_WORDS }>() {
            row(out, words)?;
        }
    }
    writeln!(out)
}
