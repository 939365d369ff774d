// Files of cases: calls on tables and rows that no book gives. Each line begins with a letter, and has hexadecimal numbers, a blank before each:
//   # ..               a title, with which a case begins
//   h b a o m i v ..   the entries of heads, bodies, "all", "any" or model from number i on become these
//   S n m . . . . .    standardises, lending so many entries of heads, bodies, "all", "any", model; and goes the plain route with those tables
//   F count k . .      folds, lending so many entries of "all" and spare
//   R count . . .      runs, after the fold if there is one, lending so many entries of "all", "any", model
// In a case with S the tables begin as zeros, in one without it "all", "any" and model do; all else begins as marks.
use crate::calls;
use limits::Counts;
use rows::clear::clear;
use std::io;
use std::io::Write;
use trial::lent::{GUARD, LentTables, Marked, Rows, Tables};
use trial::lines::Parts;

// The value of a digit. Any byte has one.
fn digit(byte: u8) -> u64 {
    let low = u64::from(byte % 16);
    if byte < b'a' { low } else { low + 9 }
}

// By hand: `from_str_radix` refuses a word that is empty, too long or has another byte, of which this is the value too.
fn number(word: &[u8]) -> u64 {
    word.iter().fold(0, |v, b| (v << 4) | digit(*b))
}

// `as`, since there is no `From` of a u64 and a `try_from` would have an arm that never comes.
fn size(word: &[u8]) -> usize {
    number(word) as usize
}

// The first numbers of a line.
fn sizes<const N: usize>(line: &[u8]) -> [usize; N] {
    let mut sizes = [0; N];
    for (entry, word) in sizes.iter_mut().zip(line.split(|b| *b == b' ').skip(1)) {
        *entry = size(word);
    }
    sizes
}

// The first line with this letter.
fn line(text: &[u8], letter: u8) -> Option<&[u8]> {
    text.split(|b| *b == b'\n')
        .find(|line| line.first() == Some(&letter))
}

// The entries that a line gives.
fn put<E: Marked>(line: &[u8], area: &mut [E]) {
    let mut words = line.split(|b| *b == b' ').skip(1);
    let from = words.next().map_or(0, size);
    for (entry, word) in area.iter_mut().skip(from).zip(words) {
        *entry = E::low(number(word));
    }
}

// Zeros over the stated size, and the entries that the lines with this letter give.
fn fill<E: Marked>(text: &[u8], letter: u8, area: &mut [E]) {
    clear(area, 0, area.len().saturating_sub(GUARD));
    let lines = text.split(|b| *b == b'\n');
    for line in lines.filter(|line| line.first() == Some(&letter)) {
        put(line, area);
    }
}

// The first entries of an area, or none where it has fewer.
fn front<E>(area: &mut [E], count: usize) -> &mut [E] {
    area.get_mut(..count).unwrap_or_default()
}

// Standardises and goes the plain route, as a line says. A call to which more entries would be lent than an area has is left out; of heads and bodies
// none are lent then.
fn tables<W: Write>(out: &mut W, text: &[u8], line: &[u8]) -> io::Result<()> {
    let [names, rules, heads, bodies, all, any, model] = sizes::<7>(line);
    let book = Counts { names, rules };
    let mut tables = Tables::marked();
    fill(text, b'h', &mut tables.heads);
    fill(text, b'b', &mut tables.bodies);
    let lent = LentTables {
        spellings: &mut tables.spellings,
        heads: front(&mut tables.heads, heads),
        bodies: front(&mut tables.bodies, bodies),
    };
    let mut rows = Rows::marked();
    if let Some(all) = rows.all.get_mut(..all)
        && let Some(any) = rows.any.get_mut(..any)
        && let Some(model) = rows.model.get_mut(..model)
    {
        calls::standardise(out, &lent, book, all, any, model)?;
    }
    let mut fresh = Rows::marked();
    if let Some(model) = fresh.model.get_mut(..model) {
        trial::calls::plainly(out, &lent, book, model, 0)?;
    }
    Ok(())
}

// Folds, where the areas have so many entries.
fn fold<W: Write>(out: &mut W, line: &[u8], rows: &mut Rows) -> io::Result<()> {
    let [count, k, all, spare] = sizes::<4>(line);
    if let Some(all) = rows.all.get_mut(..all)
        && let Some(spare) = rows.spare.get_mut(..spare)
    {
        calls::fold(out, all, spare, count, k)?;
    }
    Ok(())
}

// Runs, where the model has so many entries; of "all" and "any" none are lent where they have fewer.
fn run<W: Write>(out: &mut W, line: &[u8], rows: &mut Rows) -> io::Result<()> {
    let [count, all, any, model] = sizes::<4>(line);
    if let Some(model) = rows.model.get_mut(..model) {
        let all = front(&mut rows.all, all);
        let any = front(&mut rows.any, any);
        calls::run(out, all, any, model, count)?;
    }
    Ok(())
}

// Folds and runs, where there is a line for it.
fn rows<W: Write>(out: &mut W, text: &[u8]) -> io::Result<()> {
    let mut rows = Rows::marked();
    fill(text, b'a', &mut rows.all);
    fill(text, b'o', &mut rows.any);
    fill(text, b'm', &mut rows.model);
    if let Some(line) = line(text, b'F') {
        fold(out, line, &mut rows)?;
    }
    if let Some(line) = line(text, b'R') {
        run(out, line, &mut rows)?;
    }
    Ok(())
}

// A blank with which the file ends begins no word.
fn case<W: Write>(out: &mut W, text: &[u8]) -> io::Result<()> {
    let text = text.strip_suffix(b" ").unwrap_or(text);
    match line(text, b'S') {
        Some(line) => tables(out, text, line),
        None => rows(out, text),
    }
}

pub fn each<W: Write>(out: &mut W, text: &[u8]) -> io::Result<()> {
    for part in Parts::of(text) {
        out.write_all(part.title)?;
        case(out, part.body)?;
    }
    Ok(())
}
