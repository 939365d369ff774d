// The public call that solves a book: from text to listing; and its work in areas that may be known to be clear.
#![tactic(auto)]

ghost use Rattle.std.specs.Prelude.{◌≡◌, true, length};
ghost use Rattle.limits.specs.Refusal.{number_in, refused_number, count_in};
ghost use Rattle.grammar.specs.Bytes.{letters};
ghost use Rattle.tables.specs.Reading.{book_of};
ghost use Rattle.solving.specs.Solve.{solve_call};
ghost use Rattle.solver.specs.Range.{short_solve, range_cause};
ghost use Rattle.solver.specs.End.{listed_end};
ghost use Rattle.solver.specs.Lent.{answer_in};

pub mod run;

use limits::{Book, Refusal, Refused};
use listing::names::Names;
use scan::letters::Letters;
use tablecheck::NameArea;
use ways::Rules;

// What a book comes to: how many names, atoms, names held and rounds there are, c and h, and where the text of the listing ends.
// Document 01 lists these numbers one by one as the answer: what the steps count is not nested in it.
#[derive(Clone, Copy, Debug, PartialEq, Eq)]
pub struct Solved {
    pub names: usize,
    pub atoms: usize,
    pub held: usize,
    pub rounds: usize,
    pub c: usize,
    pub h: usize,
    pub end: usize,
}

// The areas that a call is lent, of any length.
#[derive(Drop)]
pub struct Areas<'a> {
    pub spellings: &'a mut [u8],
    pub heads: &'a mut [u16],
    pub bodies: &'a mut [u64],
    pub all: &'a mut [u64],
    pub any: &'a mut [u64],
    pub spare: &'a mut [u64],
    pub model: &'a mut [u64],
    pub listing: &'a mut [u8],
}

impl<'a> Areas<'a> {
    ghost use Rattle.solver.specs.Lent.{lent, left, Fresh, answer_in};

    // Whether an area is shorter than its stated size. `rows_short` of rowcheck has three of the tests of rows, and the spare would stand apart from it.
    #[tactic(auto, unfolding(crate::specs::Range::short_solve, reader::specs::Short::short_read))]
    fn too_short(&self) -> bool
        ensures { result ≡ short_solve (length self.now.spellings.now) (length self.now.heads.now) (length self.now.bodies.now)
            (length self.now.all.now) (length self.now.any.now) (length self.now.spare.now) (length self.now.model.now)
            (length self.now.listing.now) }
    {
        let tables = reader::tables_short(
            self.spellings.len(),
            self.heads.len(),
            self.bodies.len(),
        );
        let rows = self.all.len() < Book::ROW_AREA
            || self.any.len() < Book::ROW_AREA
            || self.spare.len() < Book::ROW_AREA
            || self.model.len() < Book::ROW_WORDS;
        tables || rows || self.listing.len() < Book::LISTING_BYTES
    }

    // What is judged before the text is read: the areas, the bytes of text, the fold number.
    #[tactic(auto, unfolding(crate::specs::Range::range_cause, sets::specs::Set::pick))]
    fn judge(&self, text: &[u8], folds: usize) -> Result<(), Refusal>
        ensures { number_in result
            ≡ range_cause
            (short_solve (length self.now.spellings.now) (length self.now.heads.now) (length self.now.bodies.now)
            (length self.now.all.now) (length self.now.any.now) (length self.now.spare.now) (length self.now.model.now)
            (length self.now.listing.now))
            (length text.now) folds }
    {
        if self.too_short() {
            return Err(Refusal::ShortArea);
        }
        if Book::TEXT_BYTES < text.len() {
            return Err(Refusal::LongText);
        }
        if Book::FOLDS < folds {
            return Err(Refusal::Folds);
        }
        Ok(())
    }

    // Reads the text by these letters, standardises its rules, folds the rows, makes the rounds and lists the names held.
    // Rows that the book leaves unused are not cleared where the caller knows its areas of rows to be clear (fresh).
    // `fresh` is a fact of the areas that the caller has: a closure or a type for the clearing would need its condition too, in more words.
    pub fn solve(
        self,
        text: &[u8],
        folding: &Letters<'_>,
        folds: usize,
        fresh: bool,
    ) -> Result<Solved, Refused>
        requires { fresh ≡ true → Fresh self }
        ensures solved { record { answer = answer_in result; areas = left self.exit }
            ≡ solve_call folding.now text.now folds (lent self.entry) }
        ensures end { count_in (λ s. s.end) result
            ≡ listed_end (refused_number result) (book_of (letters folding.now) text.now) folds }
    {
        folding.passes();
        self.judge(text, folds)?;
        let Areas {
            spellings,
            heads,
            bodies,
            all,
            any,
            spare,
            model,
            listing,
        } = self;
        let counts = reader::read_formed(text, folding, spellings, heads, bodies)?;
        let rules = Rules::of(heads, bodies, counts);
        let run = run::run_tables(&rules, folds, all, any, spare, model, fresh)?;
        let book = Names {
            names: NameArea::of(spellings, counts.names),
            model,
        };
        let listed = listing::write(&book, folds, run.rounds, listing);
        Ok(Solved {
            names: counts.names,
            atoms: run.made.atoms,
            held: listed.held,
            rounds: run.rounds,
            c: run.made.c,
            h: run.made.h,
            end: listed.end,
        })
    }
}

// The same with any table, in areas that may hold anything: areas too short and the table are judged before all else.
// Document 01 lists the areas of this call one by one; who has them as `Areas`, and letters that were judged, calls `Areas::solve`.
pub fn solve(
    text: &[u8],
    table: &[u8],
    folds: usize,
    spellings: &mut [u8],
    heads: &mut [u16],
    bodies: &mut [u64],
    all: &mut [u64],
    any: &mut [u64],
    spare: &mut [u64],
    model: &mut [u64],
    listing: &mut [u8],
) -> Result<Solved, Refused>
    ensures solved { record {
      answer = answer_in result;
      areas = record {
        tables = record { spellings = spellings.new; heads = heads.new; bodies = bodies.new };
        all = all.new;
        any = any.new;
        spare = spare.new;
        model = model.new;
        listing = listing.new;
      };
    } ≡ solve_call table.now text.now folds (record {
      tables = record { spellings = spellings.old; heads = heads.old; bodies = bodies.old };
      all = all.old;
      any = any.old;
      spare = spare.old;
      model = model.old;
      listing = listing.old;
    }) }
    ensures end { count_in (λ s. s.end) result ≡ listed_end (refused_number result) (book_of (letters table.now) text.now) folds }
{
    let areas = Areas {
        spellings,
        heads,
        bodies,
        all,
        any,
        spare,
        model,
        listing,
    };
    if areas.too_short() {
        return Err(Refusal::ShortArea.into());
    }
    let folding = Letters::judge(table)?;
    areas.solve(text, &folding, folds, false)
}
