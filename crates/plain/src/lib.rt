// The public call of the plain route: rounds over the rule tables, from the empty set.
#![tactic(auto)]

ghost use Rattle.std.specs.Prelude.{◌≡◌};
ghost use Rattle.limits.specs.Book.{row_words};
ghost use Rattle.limits.specs.Refusal.{number_in, count_in};
ghost use Rattle.sets.specs.Set.{union};
ghost use Rattle.words.specs.Row.{row, pack};
ghost use Rattle.solving.specs.Plain.{plain_call};
ghost use Rattle.plain.specs.Step.{heads_from};

use limits::{Book, Counts, Refusal};
use rounds::turns::{Round, until_still};
use rows::row;
use ways::Rules;

// What the plain route counts: the held names and the rounds made.
#[derive(Clone, Copy, Debug, PartialEq, Eq)]
pub struct Plain {
    pub held: usize,
    pub rounds: usize,
}

// The rules by which the plain route makes its rounds.
#[derive(Drop)]
struct Route<'a> {
    rules: Rules<'a>,
}

impl<'a> Route<'a> {
    // The heads of the rules whose body lies in v join `next`.
    fn join(&self, v: &[u64; Book::ROW_WORDS], next: &mut [u64; Book::ROW_WORDS])
        ensures { next.new ≡ pack row_words
            (union (row next.old) (heads_from self.now.rules.tables self.now.rules.counts.rules (row v.now))) }
    {
        for j in 0..self.rules.rules() {
            let holds = row::within(self.rules.body(j), &v[..Book::BODY_WORDS]);
            if holds {
                row::insert(next, self.rules.head(j));
            }
        }
    }
}

// A round makes of a set the heads of the rules whose body lies in it.
impl<'a> Round for Route<'a> {
    ghost use Rattle.plain.specs.Step.{heads_from};

    ghost atoms = { λ r. r.rules.counts.names };

    ghost after = { λ r. heads_from r.rules.tables r.rules.counts.rules };

    fn step(&self, v: &[u64; Book::ROW_WORDS]) -> [u64; Book::ROW_WORDS] {
        let mut next = [0; Book::ROW_WORDS];
        self.join(v, &mut next);
        next
    }
}

// Makes the rounds over a book's rules, from the empty set, and leaves the last set in the model area; a refusal leaves it as it was. The areas are
// lent one by one, as the reader was lent them.
pub fn run(
    heads: &[u16],
    bodies: &[u64],
    counts: Counts,
    model: &mut [u64],
) -> Result<Plain, Refusal>
    ensures { record {
      number = number_in result;
      held = count_in (λ r. r.held) result;
      rounds = count_in (λ r. r.rounds) result;
      model = model.new;
    } ≡ plain_call (record { heads = heads.now; bodies = bodies.now }) (record { names = counts.names; rules = counts.rules }) model.old }
{
    let short = model.len() < Book::ROW_WORDS;
    if short {
        return Err(Refusal::ShortArea);
    }
    let rules = Rules::judge(heads, bodies, counts)?;
    rules.in_order();
    let route = Route { rules };
    let start = [0; Book::ROW_WORDS];
    let next = route.step(&start);
    let reached = until_still(&route, start, next);
    model[..Book::ROW_WORDS].copy_from_slice(&reached.set);
    let held = row::count(&reached.set);
    Ok(Plain {
        held,
        rounds: reached.rounds,
    })
}
