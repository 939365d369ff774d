// The rules of a book in lent tables that are in order: which names have several rules, and how many rules are theirs.
#![tactic(auto)]

ghost use Rattle.std.specs.Prelude.{◌≡◌, ℕ, ◌*◌, ◌<◌, ◌≤◌, length, get_or, IfOk};
ghost use Rattle.limits.specs.Book.{names, rules, body_words, body_area};
ghost use Rattle.limits.specs.Refusal.{number_in};
ghost use Rattle.sets.specs.Set.{pick, count};
ghost use Rattle.areas.specs.Area.{part};
ghost use Rattle.words.specs.Row.{row, pack};
ghost use Rattle.systems.specs.Standardise.{formed_entry, formed_tables};
ghost use Rattle.ways.specs.Ways.{with_name, several_names};
ghost use Rattle.tables.specs.Areas.{rule_tables};
ghost use Rattle.ways.specs.Tables.{head_end, InOrder, in_use, tables_cause};

use limits::{Book, Counts, Refusal};
use rows::row;
use std::marker::Model;

// Lent heads and bodies, each at least as long as a book's, and how many rules are in use.
#[derive(Drop)]
pub struct RuleArea<'a> {
    heads: &'a [u16],
    bodies: &'a [u64],
    count: usize,
}

impl<'a> Model for RuleArea<'a> {
    ghost use Rattle.std.specs.Prelude.{◌≤◌, length};
    ghost use Rattle.limits.specs.Book.{rules, body_area};
    ghost use Rattle.tables.specs.Areas.{rule_tables};
    ghost use Rattle.ways.specs.Tables.{CountedRules};

    ghost Value = { CountedRules };

    ghost view = { λ t. record { tables = rule_tables t.heads.now t.bodies.now; count = t.count } };

    ghost invariant = { λ t. (rules ≤ length t.heads.now) × (body_area ≤ length t.bodies.now) × (t.count ≤ rules) };
}

impl<'a> RuleArea<'a> {
    // The area of so many rules.
    pub fn of(heads: &'a [u16], bodies: &'a [u64], count: usize) -> RuleArea<'a>
        requires { (rules ≤ length heads.now) × (body_area ≤ length bodies.now) × (count ≤ rules) }
        ensures { result ≡ record { tables = rule_tables heads.now bodies.now; count = count } }
    {
        RuleArea {
            heads,
            bodies,
            count,
        }
    }

    // How many rules are in use.
    pub fn rule_count(&self) -> usize
        ensures count { result ≡ self.now.count }
        ensures bound { result ≤ rules }
    {
        self.count
    }

    // All heads that are lent.
    pub fn heads(&self) -> &'a [u16]
        ensures heads { result.now ≡ self.now.tables.heads }
        ensures long { rules ≤ length result.now }
    {
        self.heads
    }

    // All words of bodies that are lent.
    pub fn bodies(&self) -> &'a [u64]
        ensures bodies { result.now ≡ self.now.tables.bodies }
        ensures long { body_area ≤ length result.now }
    {
        self.bodies
    }

    // The head of rule j.
    pub fn head(&self, j: usize) -> usize
        requires { j < rules }
        ensures head { result ≡ get_or self.now.tables.heads j 0 }
        ensures bound { result < head_end }
    {
        usize::from(self.heads[j])
    }

    // The body of rule j, a row of names.
    pub fn body(&self, j: usize) -> &'a [u64]
        requires { j < rules }
        ensures words { result.now ≡ part (j * body_words) body_words self.now.tables.bodies }
        ensures size { length result.now ≡ body_words }
    {
        row::nth(self.bodies, j, Book::BODY_WORDS)
    }

    // Whether rule entry j is in order: its head and its body's bits are below the number of names; at or past the rule count it is zero.
    #[tactic(auto, using(crate::proofs::Entries::entry_tests))]
    fn entry(&self, name_count: usize, j: usize) -> bool
        requires { (name_count ≤ names) × (j < rules) }
        ensures { result ≡ formed_entry self.now.tables (record { names = name_count; rules = self.now.count }) j }
    {
        let head = self.head(j);
        let body = self.body(j);
        if j < self.count {
            return head < name_count && row::ends(body, name_count);
        }
        head == 0 && row::empty(body)
    }
}

// Whether the tables are in order: the counts within their limits, and every entry.
#[tactic(auto, using(crate::proofs::Entries::too_many_names, crate::proofs::Entries::too_many_rules))]
pub fn formed(heads: &[u16], bodies: &[u64], counts: Counts) -> bool
    requires { (rules ≤ length heads.now) × (body_area ≤ length bodies.now) }
    ensures { result
        ≡ formed_tables (rule_tables heads.now bodies.now) (record { names = counts.names; rules = counts.rules }) }
{
    let many_names = Book::NAMES < counts.names;
    let many_rules = Book::RULES < counts.rules;
    if many_names || many_rules {
        return false;
    }
    let area = RuleArea::of(heads, bodies, counts.rules);
    (0..Book::RULES).all(|j| area.entry(counts.names, j))
}

// Notes name a: it joins the row `twice` where it is in the row `once`, else that row.
#[tactic(auto, unfolding(sets::specs::Set::pick))]
fn note(once: &mut [u64; Book::BODY_WORDS], twice: &mut [u64; Book::BODY_WORDS], a: usize)
    requires { a < names }
    ensures once { once.new ≡ pick (row once.old a) once.old (with_name a once.old) }
    ensures twice { twice.new ≡ pick (row once.old a) (with_name a twice.old) twice.old }
{
    if row::member(once, a) {
        row::insert(twice, a);
    } else {
        row::insert(once, a);
    }
}

// The names with two or more of the first m rules, as a row over names. It stands beside `Rules::several`, as `helpers` beside `Rules::helpers`:
// of the tables these two ask only that the heads are names.
pub fn several(heads: &[u16], m: usize) -> [u64; Book::BODY_WORDS]
    requires { (m ≤ rules) × (rules ≤ length heads.now) × ((j : ℕ) → j < m → get_or heads.now j 0 < names) }
    ensures { result ≡ pack body_words (several_names heads.now m) }
{
    let mut once = [0; Book::BODY_WORDS];
    let mut twice = [0; Book::BODY_WORDS];
    for &head in &heads[..m] {
        note(&mut once, &mut twice, usize::from(head));
    }
    twice
}

// How many of the first m rules have a head in that row.
pub fn helpers(heads: &[u16], m: usize, several: &[u64]) -> usize
    requires { (m ≤ rules) × (rules ≤ length heads.now) × (body_words ≤ length several.now)
        × ((j : ℕ) → j < m → get_or heads.now j 0 < names) }
    ensures { result ≡ count m (λ j. row (part 0 body_words several.now) (get_or heads.now j 0)) }
{
    let several = &several[..Book::BODY_WORDS];
    heads[..m]
        .iter()
        .filter(|head| row::member(several, usize::from(**head)))
        .count()
}

// The rules of a book: lent tables in order, and how many names they are about.
#[derive(Drop)]
pub struct Rules<'a> {
    area: RuleArea<'a>,
    names: usize,
}

impl<'a> Model for Rules<'a> {
    ghost use Rattle.ways.specs.Tables.{InUse, InOrder, Fit, in_use};

    ghost Value = { InUse };

    ghost view = { λ it. in_use it.area.tables.heads it.area.tables.bodies it.names it.area.count };

    ghost invariant = { λ it. InOrder (in_use it.area.tables.heads it.area.tables.bodies it.names it.area.count)
        × Fit (in_use it.area.tables.heads it.area.tables.bodies it.names it.area.count) };
}

impl<'a> Rules<'a> {
    // Of tables that are known to be in order, as after reading.
    pub fn of(heads: &'a [u16], bodies: &'a [u64], counts: Counts) -> Rules<'a>
        requires { InOrder (in_use heads.now bodies.now counts.names counts.rules) }
        ensures { result ≡ in_use heads.now bodies.now counts.names counts.rules }
    {
        Rules {
            area: RuleArea::of(heads, bodies, counts.rules),
            names: counts.names,
        }
    }

    // Judges lent tables: their lengths, then the counts and every entry.
    #[tactic(auto, using(crate::proofs::Judged::judging))]
    pub fn judge(heads: &'a [u16], bodies: &'a [u64], counts: Counts) -> Result<Rules<'a>, Refusal>
        ensures number { number_in result ≡ tables_cause (in_use heads.now bodies.now counts.names counts.rules) }
        ensures rules { IfOk result (λ it. it ≡ in_use heads.now bodies.now counts.names counts.rules) }
    {
        // Reader and writer have these two tests among others: one function for the two would be as long as they are.
        let few_heads = heads.len() < Book::RULES;
        let few_bodies = bodies.len() < Book::BODY_AREA;
        if few_heads || few_bodies {
            return Err(Refusal::ShortArea);
        }
        if !formed(heads, bodies, counts) {
            return Err(Refusal::IllFormed);
        }
        Ok(Rules::of(heads, bodies, counts))
    }

    // Does nothing: its contract says what a caller may rest on.
    pub fn in_order(&self)
        ensures { InOrder self.now }
    {
        let _area = &self.area;
    }

    // How many names are in use.
    pub fn names(&self) -> usize
        ensures { result ≡ self.now.counts.names }
    {
        self.names
    }

    // How many rules are in use.
    pub fn rules(&self) -> usize
        ensures { result ≡ self.now.counts.rules }
    {
        self.area.rule_count()
    }

    // The head of rule j.
    pub fn head(&self, j: usize) -> usize
        requires { j < self.now.counts.rules }
        ensures head { result ≡ get_or self.now.tables.heads j 0 }
        ensures name { result < names }
    {
        self.area.head(j)
    }

    // The body of rule j, a row over names.
    pub fn body(&self, j: usize) -> &'a [u64]
        requires { j < self.now.counts.rules }
        ensures body { result.now ≡ part (j * body_words) body_words self.now.tables.bodies }
        ensures long { length result.now ≡ body_words }
    {
        self.area.body(j)
    }

    // The names with two or more rules, as a row over names.
    pub fn several(&self) -> [u64; Book::BODY_WORDS]
        ensures { result ≡ pack body_words (several_names self.now.tables.heads self.now.counts.rules) }
    {
        several(self.area.heads(), self.area.rule_count())
    }

    // How many rules have a head in that row.
    pub fn helpers(&self, several: &[u64]) -> usize
        requires { body_words ≤ length several.now }
        ensures { result ≡ count self.now.counts.rules (λ j. row (part 0 body_words several.now) (get_or self.now.tables.heads j 0)) }
    {
        helpers(self.area.heads(), self.area.rule_count(), several)
    }
}
