// Calls on areas that are lent, as several test programs make them, each with what is printed of it: the answer and a checksum of each area.
ghost use Rattle.std.specs.Prelude.{◌≡◌, IfOk};
ghost use Rattle.tables.specs.Areas.{read_call};
ghost use Rattle.solving.specs.Solve.{solve_call};
ghost use Rattle.solver.specs.Lent.{answer_in};
ghost use Rattle.solving.specs.Plain.{plain_call};

use crate::lent::{Lent, LentTables};
use crate::print;
use limits::{Counts, Refused};
use solver::Solved;
use std::io;
use std::io::Write;

// Reads a book; its counts where it is accepted.
pub fn read<W: Write>(
    out: &mut W,
    text: &[u8],
    letters: &[u8],
    tables: &mut LentTables,
) -> io::Result<Option<Counts>>
    ensures areas { record { spellings = tables.new.spellings.now; heads = tables.new.heads.now; bodies = tables.new.bodies.now }
        ≡ (read_call letters.now text.now
        (record { spellings = tables.old.spellings.now; heads = tables.old.heads.now; bodies = tables.old.bodies.now })).areas }
{
    let r = tables.read(text, letters);
    print::read(out, &r)?;
    print::tables(out, tables)?;
    writeln!(out)?;
    Ok(r.ok())
}

// Solves a book, and returns what the solver answers.
pub fn solve<W: Write>(
    out: &mut W,
    text: &[u8],
    letters: &[u8],
    folds: usize,
    lent: &mut Lent,
) -> io::Result<Result<Solved, Refused>>
    ensures { IfOk result (λ answer. record {
      answer = answer_in answer;
      areas = record {
        tables = record { spellings = lent.new.tables.spellings.now; heads = lent.new.tables.heads.now; bodies = lent.new.tables.bodies.now };
        all = lent.new.rows.all.now;
        any = lent.new.rows.any.now;
        spare = lent.new.rows.spare.now;
        model = lent.new.rows.model.now;
        listing = lent.new.listing.now;
      };
    } ≡ solve_call letters.now text.now folds (record {
      tables = record { spellings = lent.old.tables.spellings.now; heads = lent.old.tables.heads.now; bodies = lent.old.tables.bodies.now };
      all = lent.old.rows.all.now;
      any = lent.old.rows.any.now;
      spare = lent.old.rows.spare.now;
      model = lent.old.rows.model.now;
      listing = lent.old.listing.now;
    })) }
{
    let r = lent.solve(text, letters, folds);
    print::solved(out, &r)?;
    print::areas(out, lent)?;
    Ok(r)
}

// Goes the plain route, and prints so many words of the model too.
pub fn plainly<W: Write>(
    out: &mut W,
    tables: &LentTables,
    book: Counts,
    model: &mut [u64],
    words: usize,
) -> io::Result<()>
    ensures { model.new
        ≡ (plain_call (record { heads = tables.now.heads.now; bodies = tables.now.bodies.now })
        (record { names = book.names; rules = book.rules }) model.old).model }
{
    let r = plain::run(tables.heads, tables.bodies, book, model);
    print::plain(out, &r)?;
    for word in model.iter().take(words) {
        write!(out, " {word}")?;
    }
    print::rules(out, tables)?;
    print::total(out, model)?;
    writeln!(out)
}
