// From rule tables to rows, the last set and the counts.
ghost use Rattle.std.specs.Prelude.{◌≡◌, true};
ghost use Rattle.limits.specs.Book.{row_area};
ghost use Rattle.limits.specs.Refusal.{number_in, count_in};
ghost use Rattle.areas.specs.Area.{Clear};
ghost use Rattle.tables.specs.Areas.{program_in};
ghost use Rattle.solver.specs.Run.{RowsReady, run_tables};

use limits::Refusal;
use standard::Standard;
use ways::Rules;

// What standardising counts, and the rounds.
#[derive(Clone, Copy, Debug, PartialEq, Eq)]
pub struct Run {
    pub made: Standard,
    pub rounds: usize,
}

// Standardises the rules, folds the rows and makes the rounds; too many atoms leave all as it was. Rows stay in order when they are folded: no
// stage judges them again. Unused rows are not cleared where they are known to be clear (fresh).
// The areas are lent one by one: standardising and the rounds take three of them, folding takes "all" and the spare, so a struct would be undone.
// `fresh` is a fact of the areas that the caller has, handed on as it is: a closure or a type for the clearing would need its condition too.
pub fn run_tables(
    rules: &Rules<'_>,
    folds: usize,
    all: &mut [u64],
    any: &mut [u64],
    spare: &mut [u64],
    model: &mut [u64],
    fresh: bool,
) -> Result<Run, Refusal>
    requires ready { RowsReady folds (record { all = all.old; any = any.old; spare = spare.old; model = model.old }) }
    requires clear { fresh ≡ true → Clear row_area all.old × Clear row_area any.old × Clear row_area spare.old }
    ensures { record {
      number = number_in result;
      atoms = count_in (λ r. r.made.atoms) result;
      rounds = count_in (λ r. r.rounds) result;
      c = count_in (λ r. r.made.c) result;
      h = count_in (λ r. r.made.h) result;
      areas = record { all = all.new; any = any.new; spare = spare.new; model = model.new };
    } ≡ run_tables (program_in rules.now.tables rules.now.counts) folds
        (record { all = all.old; any = any.old; spare = spare.old; model = model.old }) }
{
    rules.in_order();
    let made = standard::standardise_formed(rules, all, any, model, fresh)?;
    unfold::fold_formed(all, spare, made.atoms, folds, fresh);
    // The rounds refuse no rows that standardising left.
    let rounds = rounds::run_formed(all, any, model, made.atoms)?;
    Ok(Run { made, rounds })
}
