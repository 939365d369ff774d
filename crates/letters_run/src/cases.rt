// The cases of a file, one after another. A file is made of parts: the number of a part's bytes in two, the higher first, then these bytes. It
// begins with the number of its tables and with so many parts. A case is a part with its title; the number of the table under which it is read
// and solved, of the one under which it is written, of folds, and of what is changed; and a part with its text, or with what an area holds that
// is to be filled. A file may be cut off anywhere.
ghost use Rattle.std.specs.Prelude.{◌<◌, ◌≤◌, length};

use crate::calls::Change;
use crate::{calls, ours};
use std::io;
use std::io::Write;

// The part at the front of a file, as far as it goes, and what comes after it.
fn part(file: &[u8]) -> (&[u8], &[u8])
    ensures within { length result.1.now ≤ length file.now }
    ensures less { 0 < length file.now → length result.1.now < length file.now }
{
    let [high, low, rest @ ..] = file else {
        return (&[], &[]);
    };
    let size = usize::from(u16::from_be_bytes([*high, *low]));
    rest.split_at(size.min(rest.len()))
}

// What comes after so many parts.
fn after(file: &[u8], parts: u8) -> &[u8] {
    let mut rest = file;
    for _ in 0..parts {
        rest = part(rest).1;
    }
    rest
}

// What a case has behind its title.
#[derive(Drop)]
pub struct Call<'a> {
    pub table: &'a [u8],
    pub other: &'a [u8],
    pub folds: usize,
    pub change: Change,
    pub text: &'a [u8],
}

// A case has no call where the file is cut off before the call's text.
#[derive(Drop)]
pub struct Case<'a> {
    pub title: &'a [u8],
    pub call: Option<Call<'a>>,
}

// The cases that are left of a file.
#[derive(Drop)]
pub struct Cases<'a> {
    tables: &'a [u8],
    rest: &'a [u8],
}

impl<'a> Cases<'a> {
    pub fn of(file: &'a [u8]) -> Cases<'a> {
        let [count, tables @ ..] = file else {
            return Cases {
                tables: &[],
                rest: &[],
            };
        };
        Cases {
            tables,
            rest: after(tables, *count),
        }
    }

    fn table(&self, k: u8) -> &'a [u8] {
        part(after(self.tables, k)).0
    }
}

impl<'a> Iterator for Cases<'a> {
    type Item = Case<'a>;

    ghost use Rattle.std.specs.Prelude.{length};
    ghost use Rattle.std.specs.Iterator.{at_most};

    ghost remaining = { λ s. at_most (length s.rest.now) };

    fn next(&mut self) -> Option<Case<'a>> {
        if self.rest.is_empty() {
            return None;
        }
        let (title, after) = part(self.rest);
        let [table, other, folds, change, text @ ..] = after else {
            self.rest = &[];
            return Some(Case { title, call: None });
        };
        let (text, rest) = part(text);
        self.rest = rest;
        let call = Call {
            table: self.table(*table),
            other: self.table(*other),
            folds: usize::from(*folds),
            change: Change::from(*change),
            text,
        };
        Some(Case {
            title,
            call: Some(call),
        })
    }
}

pub fn show<W: Write>(out: &mut W, call: &Call) -> io::Result<()> {
    if call.change == Change::Filled {
        return ours::show(out, call.text);
    }
    calls::read(out, call.text, call.table, call.change)?;
    calls::solve(out, call.text, call.table, call.folds, call.change)?;
    calls::rewrite(out, call.text, call.table, call.other, call.change)
}
