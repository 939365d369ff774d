// The areas that are lent: a mark in every entry that has no other value, and GUARD entries past the stated size.
ghost use Rattle.std.specs.Prelude.{◌≡◌, ◌≤◌, ℕ, ◌%◌, ◌^◌, take, length, ◌<◌, slice_index, EachIndex, All};
ghost use Rattle.std.specs.Io.{StartsWith};
ghost use Rattle.limits.specs.Refusal.{number_in, refused_number, refused_line, count_in};
ghost use Rattle.grammar.specs.Bytes.{our_letters};
ghost use Rattle.tables.specs.Areas.{read_call};
ghost use Rattle.tables.specs.Writing.{write_call};
ghost use Rattle.solving.specs.Solve.{solve_call};
ghost use Rattle.solver.specs.Lent.{answer_in};

use areas::Entry;
use limits::{Book, Counts, Refusal, Refused};
use solver::Solved;

pub const GUARD: usize = 4;

const SPELLINGS: usize = Book::NAME_AREA + GUARD;

const HEADS: usize = Book::RULES + GUARD;

const BODIES: usize = Book::BODY_AREA + GUARD;

const ROWS: usize = Book::ROW_AREA + GUARD;

const MODEL: usize = Book::ROW_WORDS + GUARD;

const LISTING: usize = Book::LISTING_BYTES + GUARD;

pub const TEXT: usize = Book::TEXT_BYTES + GUARD;

// An entry of a width: its mark, and the entry with the low bits of a number. `low` goes by `as`: a `try_from`
// would have an arm that never comes.
pub trait Marked: Entry {
    ghost MARK: { Self };

    ghost bits: { ℕ };

    const MARK: Self;

    fn low(number: u64) -> Self
        ensures { Self.number result ≡ number % 2 ^ bits };
}

impl Marked for u8 {
    ghost MARK = { 0xA5 };

    ghost bits = { 8 };

    const MARK: u8 = 0xA5;

    fn low(number: u64) -> u8 {
        (number % 256) as u8
    }
}

impl Marked for u16 {
    ghost MARK = { 0x1234 };

    ghost bits = { 16 };

    const MARK: u16 = 0x1234;

    fn low(number: u64) -> u16 {
        (number % 65536) as u16
    }
}

impl Marked for u64 {
    ghost MARK = { 0x0123_4567_89AB_CDEF };

    ghost bits = { 64 };

    const MARK: u64 = 0x0123_4567_89AB_CDEF;

    fn low(number: u64) -> u64 {
        number
    }
}

// The areas, in the order in which the solver takes them.
#[derive(Clone, Copy, PartialEq, Eq)]
pub enum Place {
    Spellings,
    Heads,
    Bodies,
    All,
    Any,
    Spare,
    Model,
    Listing,
}

impl Place {
    pub const EACH: [Place; 8] = [
        Place::Spellings,
        Place::Heads,
        Place::Bodies,
        Place::All,
        Place::Any,
        Place::Spare,
        Place::Model,
        Place::Listing,
    ];

    // How many entries are lent of an area with this stated size: so many less where it is the one that is short.
    pub fn room(self, stated: usize, short: Option<Place>, less: usize) -> usize
        ensures { result ≤ stated }
    {
        if short == Some(self) {
            stated.saturating_sub(less)
        } else {
            stated
        }
    }
}

// The first entries of an area, or all where it has no more.
pub fn first<E>(area: &mut [E], size: usize) -> &mut [E]
    ensures { result.now ≡ take size area.old }
{
    let size = size.min(area.len());
    &mut area[..size]
}

// The areas of a book's tables. These, the areas of rows and those that the solver takes are made and lent alike, each by its fields: one
// function for all would take each field by its name and type.
#[derive(Drop)]
pub struct Tables {
    pub spellings: [u8; SPELLINGS],
    pub heads: [u16; HEADS],
    pub bodies: [u64; BODIES],
}

// What is lent of them.
#[derive(Drop)]
pub struct LentTables<'a> {
    pub spellings: &'a mut [u8],
    pub heads: &'a mut [u16],
    pub bodies: &'a mut [u64],
}

impl Tables {
    pub fn marked() -> Tables
        ensures spellings { All (λ x. x ≡ ⟦<u8 as Marked>⟧.MARK) result.spellings }
        ensures heads { All (λ x. x ≡ ⟦<u16 as Marked>⟧.MARK) result.heads }
        ensures bodies { All (λ x. x ≡ ⟦<u64 as Marked>⟧.MARK) result.bodies }
    {
        Tables {
            spellings: [u8::MARK; SPELLINGS],
            heads: [u16::MARK; HEADS],
            bodies: [u64::MARK; BODIES],
        }
    }

    // Of each area its first entries, as many as `room` says where it is told the place and the stated size.
    #[tactic(auto, using(crate::proofs::Fronts::front))]
    pub fn lend<F: Fn(Place, usize) -> usize>(&mut self, room: F) -> LentTables<'_>
        requires { F.IsAlwaysCallable room }
        ensures spellings { StartsWith self.old.spellings result.spellings.now }
        ensures heads { StartsWith self.old.heads result.heads.now }
        ensures bodies { StartsWith self.old.bodies result.bodies.now }
    {
        LentTables {
            spellings: first(
                self.spellings.as_mut_slice(),
                room(Place::Spellings, Book::NAME_AREA),
            ),
            heads: first(self.heads.as_mut_slice(), room(Place::Heads, Book::RULES)),
            bodies: first(
                self.bodies.as_mut_slice(),
                room(Place::Bodies, Book::BODY_AREA),
            ),
        }
    }

    // The areas whole.
    pub fn whole(&mut self) -> LentTables<'_>
        ensures spellings { StartsWith self.old.spellings result.spellings.now }
        ensures heads { StartsWith self.old.heads result.heads.now }
        ensures bodies { StartsWith self.old.bodies result.bodies.now }
    {
        self.lend(|_, _| usize::MAX)
    }
}

// The areas of rows.
#[derive(Drop)]
pub struct Rows {
    pub all: [u64; ROWS],
    pub any: [u64; ROWS],
    pub spare: [u64; ROWS],
    pub model: [u64; MODEL],
}

#[derive(Drop)]
pub struct LentRows<'a> {
    pub all: &'a mut [u64],
    pub any: &'a mut [u64],
    pub spare: &'a mut [u64],
    pub model: &'a mut [u64],
}

impl Rows {
    pub fn marked() -> Rows
        ensures all { All (λ x. x ≡ ⟦<u64 as Marked>⟧.MARK) result.all }
        ensures any { All (λ x. x ≡ ⟦<u64 as Marked>⟧.MARK) result.any }
        ensures spare { All (λ x. x ≡ ⟦<u64 as Marked>⟧.MARK) result.spare }
        ensures model { All (λ x. x ≡ ⟦<u64 as Marked>⟧.MARK) result.model }
    {
        Rows {
            all: [u64::MARK; ROWS],
            any: [u64::MARK; ROWS],
            spare: [u64::MARK; ROWS],
            model: [u64::MARK; MODEL],
        }
    }

    #[tactic(auto, using(crate::proofs::Fronts::front))]
    pub fn lend<F: Fn(Place, usize) -> usize>(&mut self, room: F) -> LentRows<'_>
        requires { F.IsAlwaysCallable room }
        ensures all { StartsWith self.old.all result.all.now }
        ensures any { StartsWith self.old.any result.any.now }
        ensures spare { StartsWith self.old.spare result.spare.now }
        ensures model { StartsWith self.old.model result.model.now }
    {
        LentRows {
            all: first(self.all.as_mut_slice(), room(Place::All, Book::ROW_AREA)),
            any: first(self.any.as_mut_slice(), room(Place::Any, Book::ROW_AREA)),
            spare: first(
                self.spare.as_mut_slice(),
                room(Place::Spare, Book::ROW_AREA),
            ),
            model: first(
                self.model.as_mut_slice(),
                room(Place::Model, Book::ROW_WORDS),
            ),
        }
    }
}

// All areas that the solver takes.
#[derive(Drop)]
pub struct Areas {
    pub tables: Tables,
    pub rows: Rows,
    pub listing: [u8; LISTING],
}

#[derive(Drop)]
pub struct Lent<'a> {
    pub tables: LentTables<'a>,
    pub rows: LentRows<'a>,
    pub listing: &'a mut [u8],
}

impl Areas {
    pub fn marked() -> Areas
        ensures spellings { All (λ x. x ≡ ⟦<u8 as Marked>⟧.MARK) result.tables.spellings }
        ensures heads { All (λ x. x ≡ ⟦<u16 as Marked>⟧.MARK) result.tables.heads }
        ensures bodies { All (λ x. x ≡ ⟦<u64 as Marked>⟧.MARK) result.tables.bodies }
        ensures all { All (λ x. x ≡ ⟦<u64 as Marked>⟧.MARK) result.rows.all }
        ensures any { All (λ x. x ≡ ⟦<u64 as Marked>⟧.MARK) result.rows.any }
        ensures spare { All (λ x. x ≡ ⟦<u64 as Marked>⟧.MARK) result.rows.spare }
        ensures model { All (λ x. x ≡ ⟦<u64 as Marked>⟧.MARK) result.rows.model }
        ensures listing { All (λ x. x ≡ ⟦<u8 as Marked>⟧.MARK) result.listing }
    {
        Areas {
            tables: Tables::marked(),
            rows: Rows::marked(),
            listing: [u8::MARK; LISTING],
        }
    }

    #[tactic(auto, using(crate::proofs::Fronts::front))]
    pub fn lend<F: Fn(Place, usize) -> usize>(&mut self, room: F) -> Lent<'_>
        requires { F.IsAlwaysCallable room }
        ensures spellings { StartsWith self.old.tables.spellings result.tables.spellings.now }
        ensures heads { StartsWith self.old.tables.heads result.tables.heads.now }
        ensures bodies { StartsWith self.old.tables.bodies result.tables.bodies.now }
        ensures all { StartsWith self.old.rows.all result.rows.all.now }
        ensures any { StartsWith self.old.rows.any result.rows.any.now }
        ensures spare { StartsWith self.old.rows.spare result.rows.spare.now }
        ensures model { StartsWith self.old.rows.model result.rows.model.now }
        ensures listing { StartsWith self.old.listing result.listing.now }
    {
        Lent {
            tables: self.tables.lend(&room),
            rows: self.rows.lend(&room),
            listing: first(
                self.listing.as_mut_slice(),
                room(Place::Listing, Book::LISTING_BYTES),
            ),
        }
    }
}

impl LentTables<'_> {
    pub fn read(&mut self, text: &[u8], letters: &[u8]) -> Result<Counts, Refused>
        ensures { record {
          answer = record {
            number = refused_number result;
            line = refused_line result;
            names = count_in (λ c. c.names) result;
            rules = count_in (λ c. c.rules) result;
          };
          areas = record { spellings = self.new.spellings.now; heads = self.new.heads.now; bodies = self.new.bodies.now };
        } ≡ read_call letters.now text.now
            (record { spellings = self.old.spellings.now; heads = self.old.heads.now; bodies = self.old.bodies.now }) }
    {
        reader::read(text, letters, self.spellings, self.heads, self.bodies)
    }

    // Writes a book's tables, and returns the length of the text. The counts are no part of the tables: others are lent with the same tables.
    pub fn write(&self, letters: &[u8], book: Counts, text: &mut [u8]) -> Result<usize, Refusal>
        ensures { record { number = number_in result; size = count_in (λ size. size) result; text = text.new }
            ≡ write_call letters.now
            (record { spellings = self.now.spellings.now; heads = self.now.heads.now; bodies = self.now.bodies.now })
            book.names book.rules text.old }
    {
        writer::write(self.spellings, self.heads, self.bodies, letters, book, text)
    }

    // The bodies of the first m rules become all names.
    pub fn fill_bodies(&mut self, m: usize)
        ensures { length self.new.bodies.now ≡ length self.old.bodies.now }
    {
        for body in self.bodies.chunks_mut(Book::BODY_WORDS).take(m) {
            body.fill(u64::MAX);
        }
    }
}

// A function of its own: the borrow checker does not cover a call that lends fields of `tables` and `rows` from behind `self`, named or taken apart.
fn solve(
    text: &[u8],
    letters: &[u8],
    folds: usize,
    tables: &mut LentTables,
    rows: &mut LentRows,
    listing: &mut [u8],
) -> Result<Solved, Refused>
    ensures { record {
      answer = answer_in result;
      areas = record {
        tables = record {
          spellings = tables.new.spellings.now;
          heads = tables.new.heads.now;
          bodies = tables.new.bodies.now;
        };
        all = rows.new.all.now;
        any = rows.new.any.now;
        spare = rows.new.spare.now;
        model = rows.new.model.now;
        listing = listing.new;
      };
    } ≡ solve_call letters.now text.now folds (record {
      tables = record {
        spellings = tables.old.spellings.now;
        heads = tables.old.heads.now;
        bodies = tables.old.bodies.now;
      };
      all = rows.old.all.now;
      any = rows.old.any.now;
      spare = rows.old.spare.now;
      model = rows.old.model.now;
      listing = listing.old;
    }) }
{
    solver::solve(
        text,
        letters,
        folds,
        tables.spellings,
        tables.heads,
        tables.bodies,
        rows.all,
        rows.any,
        rows.spare,
        rows.model,
        listing,
    )
}

impl Lent<'_> {
    pub fn solve(&mut self, text: &[u8], letters: &[u8], folds: usize) -> Result<Solved, Refused>
        ensures { record {
          answer = answer_in result;
          areas = record {
            tables = record {
              spellings = self.new.tables.spellings.now;
              heads = self.new.tables.heads.now;
              bodies = self.new.tables.bodies.now;
            };
            all = self.new.rows.all.now;
            any = self.new.rows.any.now;
            spare = self.new.rows.spare.now;
            model = self.new.rows.model.now;
            listing = self.new.listing.now;
          };
        } ≡ solve_call letters.now text.now folds (record {
          tables = record {
            spellings = self.old.tables.spellings.now;
            heads = self.old.tables.heads.now;
            bodies = self.old.tables.bodies.now;
          };
          all = self.old.rows.all.now;
          any = self.old.rows.any.now;
          spare = self.old.rows.spare.now;
          model = self.old.rows.model.now;
          listing = self.old.listing.now;
        }) }
    {
        solve(
            text,
            letters,
            folds,
            &mut self.tables,
            &mut self.rows,
            self.listing,
        )
    }
}

// Our letters, entry by entry, as far as there is room. Over `entries.iter_mut().zip(0..=u8::MAX)` nothing is known of what the entries end as.
pub fn letters(entries: &mut [u8])
    ensures { EachIndex entries.new (λ k. k < 256 → slice_index entries.new k ≡ our_letters k) }
{
    for (place, entry) in entries.iter_mut().enumerate() {
        if let Ok(b) = u8::try_from(place) {
            *entry = scan::table::letter(b);
        }
    }
}
