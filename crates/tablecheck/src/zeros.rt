// Zeros: the entries of a part of an area, and the rows of tables that are not in use.
ghost use Rattle.std.specs.Prelude.{◌≡◌, ◌-◌, ◌*◌, ◌≤◌, length, take, drop, map};
ghost use Rattle.limits.specs.Book.{name_bytes, name_area, rules, body_words, body_area};
ghost use Rattle.tables.specs.Writing.{zero_from};

use crate::NameArea;
use areas::Entry;
use limits::Book;
use ways::RuleArea;

// The entries from place `from` up to `to`: none where `to` is no later place. Two places here and below, not a slice: no call has `from` past `to`,
// but the functions promise that case too, and a slice in their place would ask of callers that `from` be no later.
#[tactic(auto, using(crate::proofs::Words::cut))]
pub fn between<T>(area: &[T], from: usize, to: usize) -> &[T]
    requires { to ≤ length area.now }
    ensures { result.now ≡ take (to - from) (drop from area.now) }
{
    &area[from.min(to)..to]
}

// Whether each of those entries is zero.
pub fn all_zero<T: Entry>(area: &[T], from: usize, to: usize) -> bool
    requires { to ≤ length area.now }
    ensures { result ≡ zero_from from to (map T.number area.now) }
{
    // Looked at once, at the end: a way out at each entry, by `all`, takes sixteen times the instructions where all are zero.
    let part = between(area, from, to);
    let mut zeros = true;
    for x in part {
        zeros &= x.number() == 0;
    }
    zeros
}

impl NameArea<'_> {
    // Whether every row of the name area past the names in use is zero.
    pub fn spare_names_zero(&self) -> bool
        ensures { result ≡ zero_from (self.now.count * name_bytes) name_area self.now.area }
    {
        all_zero(self.spellings, Book::name_at(self.count), Book::NAME_AREA)
    }
}

// Whether every head past the rules in use is.
pub fn spare_heads_zero(area: &RuleArea<'_>) -> bool
    ensures { result ≡ zero_from area.now.count rules area.now.tables.heads }
{
    all_zero(area.heads(), area.rule_count(), Book::RULES)
}

// And every body.
pub fn spare_bodies_zero(area: &RuleArea<'_>) -> bool
    ensures { result ≡ zero_from (area.now.count * body_words) body_area area.now.tables.bodies }
{
    let from = Book::body_at(area.rule_count());
    all_zero(area.bodies(), from, Book::BODY_AREA)
}
