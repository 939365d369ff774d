// Our table, as it is made: filled into an area that is lent with other bytes in it, with marks past it; and an entry for each byte value by
// itself. What is printed: the number returned, and a checksum of each area.
use limits::Book;
use scan::table;
use std::io;
use std::io::Write;
use trial::lent::{Marked, TEXT, letters};
use trial::print;

// As many bytes are lent as `old` has, where the area has so many; the checksum is of the whole area.
fn fill<W: Write>(out: &mut W, old: &[u8]) -> io::Result<()> {
    let mut area = [u8::MARK; TEXT];
    let Some(lent) = area.get_mut(..old.len()) else {
        return Ok(());
    };
    lent.copy_from_slice(old);
    let answer = table::fill(lent);
    write!(out, "fill {}", print::number(&answer))?;
    print::total(out, &area)?;
    writeln!(out)
}

pub fn show<W: Write>(out: &mut W, old: &[u8]) -> io::Result<()> {
    fill(out, old)?;
    let mut entries = [u8::MARK; Book::LETTER_BYTES];
    letters(&mut entries);
    write!(out, "letters")?;
    print::total(out, &entries)?;
    writeln!(out)
}
