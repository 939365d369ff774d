// The public call that standardises tables, and its work without the tests.
#![tactic(auto)]

ghost use Rattle.std.specs.Prelude.{◌≡◌, true};
ghost use Rattle.limits.specs.Book.{row_area};
ghost use Rattle.limits.specs.Refusal.{number_in, count_in};
ghost use Rattle.areas.specs.Area.{Clear};
ghost use Rattle.systems.specs.Standardise.{standard_call};
ghost use Rattle.systems.specs.Claims.{RoundsLong};

use limits::{Book, Counts, Refusal};
use placing::Rows;
use rowcheck::rows_short;
use rows::row;
use ways::Rules;

// What standardising counts: the atoms, c and h.
#[derive(Clone, Copy, Debug, PartialEq, Eq)]
pub struct Standard {
    pub atoms: usize,
    pub c: usize,
    pub h: usize,
}

// Leaves the rows of these rules, zero past them, and the start set in the model area; too many atoms leave all as it was. The rules are not
// judged again. Nor are unused rows cleared that a caller knows to be clear (fresh).
// `fresh` is a fact of the areas that the caller has: a closure or a type for the clearing would need the same condition in more words.
pub fn standardise_formed(
    rules: &Rules<'_>,
    all: &mut [u64],
    any: &mut [u64],
    model: &mut [u64],
    fresh: bool,
) -> Result<Standard, Refusal>
    requires long { RoundsLong (record { all = all.old; any = any.old; model = model.old }) }
    requires clear { fresh ≡ true → Clear row_area all.old × Clear row_area any.old }
    ensures { record {
      number = number_in result;
      atoms = count_in (λ r. r.atoms) result;
      c = count_in (λ r. r.c) result;
      h = count_in (λ r. r.h) result;
      areas = record { all = all.new; any = any.new; model = model.new };
    } ≡ standard_call rules.now.tables rules.now.counts (record { all = all.old; any = any.old; model = model.old }) }
{
    rules.in_order();
    let several = rules.several();
    let atoms = rules.names() + rules.helpers(&several);
    let over = Book::ATOMS < atoms;
    if over {
        return Err(Refusal::Atoms);
    }
    let mut rows = Rows { all, any, model };
    rows.begin(atoms, fresh);
    let c = rows.fill(rules, &several);
    let h = row::count(&several);
    Ok(Standard { atoms, c, h })
}

// Judges the tables, then standardises them; a refusal leaves all as it was.
// The areas are lent one by one: folds take "all" with the spare, rounds take it with "any", so a struct for this call would be undone for those.
#[tactic(auto, using(crate::proofs::Calls::judging))]
pub fn standardise(
    heads: &[u16],
    bodies: &[u64],
    counts: Counts,
    all: &mut [u64],
    any: &mut [u64],
    model: &mut [u64],
) -> Result<Standard, Refusal>
    ensures { record {
      number = number_in result;
      atoms = count_in (λ r. r.atoms) result;
      c = count_in (λ r. r.c) result;
      h = count_in (λ r. r.h) result;
      areas = record { all = all.new; any = any.new; model = model.new };
    } ≡ standard_call (record { heads = heads.now; bodies = bodies.now }) (record { names = counts.names; rules = counts.rules })
        (record { all = all.old; any = any.old; model = model.old }) }
{
    if rows_short(all.len(), any.len(), model.len()) {
        return Err(Refusal::ShortArea);
    }
    let rules = Rules::judge(heads, bodies, counts)?;
    standardise_formed(&rules, all, any, model, false)
}
