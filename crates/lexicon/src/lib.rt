// The name area: finding a word among the names through an index, and adding a new one.
#![tactic(auto)]

pub mod look_up;
pub mod name;

ghost use Rattle.std.specs.Prelude.{◌≡◌, ◌+◌, ◌*◌, ◌<◌, ◌≤◌, IfSome, length, get_or, set, replicate};
ghost use Rattle.limits.specs.Book.{names, name_bytes, name_area};
ghost use Rattle.areas.specs.Area.{put};
ghost use Rattle.scan.specs.Hash.{buckets, hash_of};
ghost use Rattle.tables.specs.Numbering.{same_bytes, place};
ghost use Rattle.tables.specs.Areas.{name_at, padded};

use limits::Book;
use name::Name;
use rows::row::nth;

// The names with their index, to be read: the area in whose first rows they stand, how many there are, for each bucket its last name, and for
// each name the one before it in its bucket. A chain goes by numbers in lent tables, since the library has no heap; they count from 1, with 0
// for none, as the definition of the index does. It stands beside `Lexicon`, since who only searches asks for shared areas.
#[derive(Clone, Copy)]
pub struct Index<'a> {
    pub spellings: &'a [u8],
    pub count: usize,
    pub first: &'a [u16],
    pub prior: &'a [u16],
    ghost room: { (count ≤ names) × (name_area ≤ length spellings.now) },
}

impl<'a> Index<'a> {
    ghost use Rattle.lexicon.specs.Held.{names_held, IndexHeld};

    // Whether that is name a.
    #[tactic(auto, using(crate::proofs::Rows::spelt))]
    pub fn spells(&self, a: usize, name: &Name<'_>) -> bool
        requires { a < names }
        ensures { result ≡ same_bytes (name_at self.now.spellings.now a) name.now }
    {
        name.fills(nth(self.spellings, a, Book::NAME_BYTES))
    }

    // The number of a name, where it is one of them.
    #[tactic(auto, using(crate::proofs::Chains::walks))]
    pub fn find(&self, name: &Name<'_>, bucket: usize) -> Option<usize>
        requires indexed { IndexHeld self.now }
        requires hashed { bucket ≡ hash_of name.now }
        ensures known { IfSome result (λ a. (a < self.now.count) × (a ≡ place (names_held self.now) name.now)) }
        ensures new { result ≡ None → place (names_held self.now) name.now ≡ self.now.count }
    {
        let mut k = usize::from(self.first[bucket]);
        while k != 0 {
            if self.spells(k - 1, name) {
                return Some(k - 1);
            }
            k = usize::from(self.prior[k - 1]);
        }
        None
    }
}

// The same names while lines are read, their areas lent to be written. That the names are in order is no ghost field: `add` takes any name,
// and would have to ask for a new one.
#[derive(Drop)]
pub struct Lexicon<'a> {
    pub spellings: &'a mut [u8],
    pub count: usize,
    pub first: &'a mut [u16],
    pub prior: &'a mut [u16],
    ghost room: { (count ≤ names) × (name_area ≤ length spellings.now) },
    ghost index: { (length first.now ≡ buckets) × (length prior.now ≡ names) },
}

impl<'a> Lexicon<'a> {
    ghost use Rattle.lexicon.specs.Index.{Storable};
    ghost use Rattle.lexicon.specs.Same.{Same};

    // Without names, over lent areas: no bucket has one.
    pub fn new(spellings: &'a mut [u8], first: &'a mut [u16], prior: &'a mut [u16]) -> Lexicon<'a>
        requires room { name_area ≤ length spellings.old }
        requires index { (length first.old ≡ buckets) × (length prior.old ≡ names) }
        ensures names { result.spellings.ghost_name ≡ spellings.entry.ghost_name }
        ensures index_names { (result.first.ghost_name ≡ first.entry.ghost_name) × (result.prior.ghost_name ≡ prior.entry.ghost_name) }
        ensures area { (result.spellings.now ≡ spellings.old) × (result.count ≡ 0) }
        ensures index { (result.first.now ≡ replicate buckets 0) × (result.prior.now ≡ prior.old) }
    {
        first.fill(0);
        Lexicon {
            spellings,
            count: 0,
            first,
            prior,
        }
    }

    // Its names and their index, to be read.
    pub fn index(&self) -> Index<'_>
        ensures area { (result.spellings.now ≡ self.now.spellings.now) × (result.count ≡ self.now.count) }
        ensures index { (result.first.now ≡ self.now.first.now) × (result.prior.now ≡ self.now.prior.now) }
    {
        Index {
            spellings: self.spellings,
            count: self.count,
            first: self.first,
            prior: self.prior,
        }
    }

    // A name follows the others, and leads that bucket before the name that led it.
    pub fn add(&mut self, name: &Name<'_>, bucket: usize)
        requires room { self.old.count < names }
        requires bucket { bucket < buckets }
        ensures same { Same self.old self.new }
        ensures fine { Storable name.now }
        ensures count { self.new.count ≡ self.old.count + 1 }
        ensures area { self.new.spellings.now
            ≡ put (self.old.count * name_bytes) (padded name.now) self.old.spellings.now }
        ensures firsts { self.new.first.now ≡ set self.old.first.now bucket (self.old.count + 1) }
        ensures priors { self.new.prior.now
            ≡ set self.old.prior.now self.old.count (get_or self.old.first.now bucket 0) }
    {
        let n = self.count;
        // Cut where it is used: a function that hands a part out tells what the area ends as by `Lends` alone, a longer clause.
        let row = Book::name_at(n);
        name.write(&mut self.spellings[row..row + Book::NAME_BYTES]);
        self.prior[n] = self.first[bucket];
        // There is no `From` of a usize, and a `try_from` would have an arm that never comes.
        self.first[bucket] = (n + 1) as u16;
        self.count = n + 1;
    }
}
