// The rows, the start set and c of a program, its rules placed one by one.
// A part that is written is cut where it is used: a function that hands one out tells what the area ends as by `Lends` alone, a longer clause.
#![tactic(auto)]

ghost use Rattle.std.specs.Prelude.{◌≡◌, true, ◌+◌, ◌*◌, ◌<◌, ◌≤◌, length};
ghost use Rattle.limits.specs.Book.{names, atoms, word_bits, row_words, body_words, row_area};
ghost use Rattle.sets.specs.Set.{pick, exists, only, union, empty_set};
ghost use Rattle.tables.specs.Areas.{program_in};
ghost use Rattle.areas.specs.Area.{begun, filled, Clear};
ghost use Rattle.words.specs.Row.{row, pack};
ghost use Rattle.systems.specs.Rows.{row_in, packed};
ghost use Rattle.systems.specs.Rounds.{model_in, with_model};
ghost use Rattle.placing.specs.Partial.{with_row, PlacingReady, Filled};

use limits::Book;
use rows::clear::{clear, clear_stale};
use rows::row;
use ways::Rules;

// The row of atom i alone.
#[tactic(auto, using(crate::proofs::Overwriting::alone_row))]
fn alone(words: &mut [u64], i: usize)
    requires { i < length words.old * word_bits }
    ensures { words.new ≡ pack (length words.old) (only i) }
{
    words.fill(0);
    row::insert(words, i);
}

// The row of a body: its words, and zeros past them.
#[tactic(auto, using(crate::proofs::Overwriting::widened))]
fn widen(to: &mut [u64], body: &[u64])
    requires { length body.now ≤ length to.old }
    ensures { to.new ≡ pack (length to.old) (row body.now) }
{
    to.fill(0);
    to[..body.len()].copy_from_slice(body);
}

// Each of the first `count` rows is its own atom alone.
#[tactic(auto, using(crate::proofs::Overwriting::alone_next, crate::proofs::Overwriting::row_back, systems::proofs::Packed::packed_none))]
fn all_alone(all: &mut [u64], count: usize)
    requires { (count ≤ atoms) × (row_area ≤ length all.old) }
    ensures { all.new ≡ begun (packed row_words count only) all.old }
{
    for i in 0..count {
        let at = Book::row_at(i);
        alone(&mut all[at..at + Book::ROW_WORDS], i);
    }
}

// Atom a joins row i.
#[tactic(auto, using(crate::proofs::Overwriting::row_joined))]
fn join(area: &mut [u64], i: usize, a: usize)
    requires { (i < atoms) × (a < atoms) × (row_area ≤ length area.old) }
    ensures { area.new ≡ with_row i (union (row_in row_words area.old i) (only a)) area.old }
{
    let at = Book::row_at(i);
    row::insert(&mut area[at..at + Book::ROW_WORDS], a);
}

// The areas that a system's rows and its start set are written into, lent together. Each function that is lent them says by `Same` that they are the
// same areas afterwards, since what a `&mut` lends may be lent anew.
#[derive(Drop)]
pub struct Rows<'a> {
    pub all: &'a mut [u64],
    pub any: &'a mut [u64],
    pub model: &'a mut [u64],
    ghost long: { (row_area ≤ length all.now) × (row_area ≤ length any.now) × (row_words ≤ length model.now) },
}

impl<'a> Rows<'a> {
    ghost use Rattle.placing.specs.Same.{Same};

    // The rows of `count` atoms before any rule is placed; each area is cleared from its first unused row to its end, unless it is known to be
    // clear (fresh).
    // `fresh` is a fact of the areas that the caller has: a closure or a type for the clearing would need the same condition in more words.
    #[tactic(auto, using(crate::proofs::Overwriting::beginning, systems::proofs::Running::model_none))]
    pub fn begin(&mut self, count: usize, fresh: bool)
        requires few { count ≤ atoms }
        requires clear { fresh ≡ true → Clear row_area self.old.all.now × Clear row_area self.old.any.now }
        ensures all { self.new.all.now ≡ filled row_area (packed row_words count only) self.old.all.now }
        ensures any { self.new.any.now ≡ filled row_area (packed row_words count (λ i. empty_set)) self.old.any.now }
        ensures model { self.new.model.now ≡ with_model empty_set self.old.model.now }
        ensures same { Same self.old self.new }
    {
        let unused = Book::row_at(count);
        all_alone(self.all, count);
        clear_stale(self.all, unused, Book::ROW_AREA, fresh);
        clear(self.any, 0, unused);
        clear_stale(self.any, unused, Book::ROW_AREA, fresh);
        clear(self.model, 0, Book::ROW_WORDS);
    }

    // A rule at its home: its body becomes the home's row; where it has none, the home joins the start set. Returns whether it has a body.
    #[tactic(auto, using(crate::proofs::Overwriting::model_back, crate::proofs::Overwriting::row_back), unfolding(sets::specs::Set::pick))]
    fn place(&mut self, body: &[u64], home: usize) -> bool
        requires { (home < atoms) × (length body.now ≡ body_words) }
        ensures body { result ≡ exists (body_words * word_bits) (row body.now) }
        ensures all { self.new.all.now ≡ pick result (with_row home (row body.now) self.old.all.now) self.old.all.now }
        ensures any { self.new.any.now ≡ self.old.any.now }
        ensures model { self.new.model.now
            ≡ pick result self.old.model.now (with_model (union (model_in self.old.model.now) (only home)) self.old.model.now) }
        ensures same { Same self.old self.new }
    {
        if row::empty(body) {
            row::insert(&mut self.model[..Book::ROW_WORDS], home);
            return false;
        }
        let at = Book::row_at(home);
        widen(&mut self.all[at..at + Book::ROW_WORDS], body);
        true
    }

    // The home of a rule with this head: the head, or, where it has several rules, the next helper, which joins the head's "any" row.
    #[tactic(auto, unfolding(sets::specs::Set::pick))]
    fn house(&mut self, head: usize, several: &[u64], next: &mut usize) -> usize
        requires { (head < names) × (length several.now ≡ body_words) × (row several.now head ≡ true → next.old < atoms) }
        ensures home { result ≡ pick (row several.now head) next.old head }
        ensures next { next.new ≡ pick (row several.now head) (next.old + 1) next.old }
        ensures all { self.new.all.now ≡ self.old.all.now }
        ensures any { self.new.any.now
            ≡ pick (row several.now head) (with_row head (union (row_in row_words self.old.any.now head) (only next.old)) self.old.any.now)
            self.old.any.now }
        ensures model { self.new.model.now ≡ self.old.model.now }
        ensures same { Same self.old self.new }
    {
        if !row::member(several, head) {
            return head;
        }
        let helper = *next;
        join(self.any, head, helper);
        *next += 1;
        helper
    }

    // The rules in book order, each at its home. Returns c.
    pub fn fill(&mut self, rules: &Rules<'_>, several: &[u64]) -> usize
        requires { PlacingReady rules.now.tables rules.now.counts several.now
            (record { all = self.old.all.now; any = self.old.any.now; model = self.old.model.now }) }
        ensures filled { Filled (program_in rules.now.tables rules.now.counts) result
            (record { all = self.old.all.now; any = self.old.any.now; model = self.old.model.now })
            (record { all = self.new.all.now; any = self.new.any.now; model = self.new.model.now }) }
        ensures same { Same self.old self.new }
    {
        let mut helper = rules.names();
        let mut c = 0;
        for j in 0..rules.rules() {
            let home = self.house(rules.head(j), several, &mut helper);
            c += usize::from(self.place(rules.body(j), home));
        }
        c
    }
}
