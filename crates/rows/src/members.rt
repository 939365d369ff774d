// The atoms of a row one after another.
ghost use Rattle.std.specs.Prelude.{◌≡◌, ◌*◌, ◌^◌, ◌<◌, ◌≤◌, length};
ghost use Rattle.limits.specs.Book.{word_bits};

use crate::row;

// The atoms of a row from a place on, rising.
#[derive(Drop)]
pub struct Members<'a> {
    words: &'a [u64],
    from: usize,
    ghost within: { (from ≤ length words.now * word_bits) × (length words.now * word_bits < 2 ^ 64) },
}

impl<'a> Members<'a> {
    ghost use Rattle.rows.specs.Members.{atoms_from, left};

    pub fn of(words: &'a [u64], from: usize) -> Members<'a>
        requires { (from ≤ length words.now * word_bits) × (length words.now * word_bits < 2 ^ 64) }
        ensures { left result ≡ atoms_from words.now from }
    {
        Members { words, from }
    }
}

impl<'a> Iterator for Members<'a> {
    type Item = usize;

    ghost use Rattle.std.specs.Iterator.{YieldsFirst, item_count};
    ghost use Rattle.rows.specs.Members.{left};

    ghost next_gives = { YieldsFirst left };

    ghost remaining = { item_count left };

    fn next(&mut self) -> Option<usize> {
        let a = row::next(self.words, self.from)?;
        self.from = a + 1;
        Some(a)
    }
}
