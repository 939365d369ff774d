// The names of tables: each folded and padded with zeros, and no two the same.
ghost use Rattle.std.specs.Prelude.{◌≡◌, [], ◌&&◌, not, ◌-◌, ◌*◌, ◌<◌, ◌≤◌, length, get_or};
ghost use Rattle.limits.specs.Book.{names, name_bytes, name_area};
ghost use Rattle.sets.specs.Set.{every};
ghost use Rattle.areas.specs.Area.{part};
ghost use Rattle.grammar.specs.Bytes.{letters, all_of};
ghost use Rattle.tables.specs.Numbering.{same_bytes};
ghost use Rattle.tables.specs.Areas.{name_at, names_in};
ghost use Rattle.tables.specs.Writing.{zero_from, own, good_name, different};

use crate::NameArea;
use crate::zeros::{all_zero, between};
use lexicon::look_up::{look_up, name_in};
use limits::Book;
use rows::row::nth;
use scan::letters::Letters;

// How many bytes of two names are compared one by one before the names are cut out whole.
const FIRST_BYTES: usize = 8;

// Whether a byte is a name byte that is its own entry.
#[tactic(auto, unfolding(tables::specs::Writing::own, tables::specs::Areas::nonzero))]
fn is_own(b: u8, folding: &Letters<'_>) -> bool
    ensures { result ≡ own (letters folding.now) b }
{
    b != 0 && folding.fold(b) == b
}

// Whether every byte from place `from` up to `to` is.
pub fn own_bytes(area: &[u8], folding: &Letters<'_>, from: usize, to: usize) -> bool
    requires { to ≤ length area.now }
    ensures { result ≡ all_of (own (letters folding.now)) (part from (to - from) area.now) }
{
    between(area, from, to).iter().all(|b| is_own(*b, folding))
}

impl<'a> NameArea<'a> {
    // Row a of the name area.
    fn name_row(&self, a: usize) -> &'a [u8]
        requires { a < names }
        ensures bytes { result.now ≡ part (a * name_bytes) name_bytes self.now.area }
        ensures size { length result.now ≡ name_bytes }
    {
        nth(self.spellings, a, Book::NAME_BYTES)
    }

    // The name in it: up to the row's first zero, or all of it.
    #[tactic(auto, using(crate::proofs::Spelling::name_found, tables::proofs::Encoding::name_fits))]
    pub fn name(&self, a: usize) -> &'a [u8]
        requires { a < names }
        ensures bytes { result.now ≡ name_at self.now.area a }
        ensures bound { length result.now ≤ name_bytes }
    {
        name_in(self.name_row(a))
    }

    // Name a of those in use, nothing where it is none of them.
    #[tactic(auto, using(crate::proofs::Spelling::look_up_is, crate::proofs::Spelling::look_up_fits))]
    pub fn spelt(&self, a: usize) -> &'a [u8]
        ensures bytes { result.now ≡ get_or (names_in self.now.area self.now.count) a [] }
        ensures bound { length result.now ≤ name_bytes }
    {
        look_up(self.spellings, self.count, a)
    }

    // Whether row a holds a folded name, padded with zeros.
    #[tactic(auto, using(crate::proofs::Spelling::row_outcomes))]
    pub fn good_name(&self, a: usize, folding: &Letters<'_>) -> bool
        requires { a < names }
        ensures { result ≡ good_name (letters folding.now) self.now.area a }
    {
        let row = self.name_row(a);
        let end = self.name(a).len();
        end > 0 && own_bytes(row, folding, 0, end) && all_zero(row, end, row.len())
    }

    pub fn good_names(&self, folding: &Letters<'_>) -> bool
        ensures { result ≡ every self.now.count (good_name (letters folding.now) self.now.area) }
    {
        (0..self.count).all(|a| self.good_name(a, folding))
    }

    // Whether names a and b are the same. Every two names are compared, and most differ in their first bytes: those decide alone where they can.
    // With both names cut out whole in each case the writer took up to six times the instructions.
    #[tactic(auto, using(crate::proofs::Words::same_bytes_is))]
    pub fn same_name(&self, a: usize, b: usize) -> bool
        requires { (a < names) × (b < names) }
        ensures { result ≡ same_bytes (name_at self.now.area a) (name_at self.now.area b) }
    {
        let x = self.name_row(a);
        let y = self.name_row(b);
        for k in 0..FIRST_BYTES {
            if x[k] != y[k] {
                return false;
            }
            if x[k] == 0 {
                return true;
            }
        }
        self.name(a) == self.name(b)
    }

    // Whether name a differs from every name before it.
    pub fn is_new(&self, a: usize) -> bool
        requires { a < names }
        ensures { result
            ≡ every a (λ b. not (same_bytes (name_at self.now.area a) (name_at self.now.area b))) }
    {
        (0..a).all(|b| !self.same_name(a, b))
    }

    pub fn all_differ(&self) -> bool
        ensures { result ≡ different self.now.area self.now.count }
    {
        (0..self.count).all(|a| self.is_new(a))
    }

    // Whether the names in use are folded names, each different, and the rows past them are zero.
    pub fn names_formed(&self, folding: &Letters<'_>) -> bool
        ensures { result
            ≡ (every self.now.count (good_name (letters folding.now) self.now.area)
            && (different self.now.area self.now.count
            && zero_from (self.now.count * name_bytes) name_area self.now.area)) }
    {
        self.good_names(folding) && self.all_differ() && self.spare_names_zero()
    }
}
