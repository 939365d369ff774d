// The public call that makes the rounds over rows, from a start set, and its work without the tests.
#![tactic(auto)]

ghost use Rattle.std.specs.Prelude.{◌≡◌, true, ◌<◌, ◌≤◌, length, take, IfOk, IfErr};
ghost use Rattle.limits.specs.Book.{atoms, row_words};
ghost use Rattle.limits.specs.Refusal.{number_of, number_in, count_in};
ghost use Rattle.words.specs.Row.{row, pack};
ghost use Rattle.systems.specs.Rounds.{formed_system, rounds_call};
ghost use Rattle.systems.specs.Claims.{RoundsLong};
ghost use Rattle.rounds.specs.Rows.{with_start};
ghost use Rattle.rounds.specs.Step.{set_after};

pub mod turns;

use limits::{Book, Refusal};
use rowcheck::rows_short;
use rows::row;
use std::marker::Model;
use turns::{Round, until_still};

// The set in a model area.
#[tactic(auto, using(crate::proofs::Rising::front_words))]
fn front(model: &[u64]) -> [u64; Book::ROW_WORDS]
    requires { row_words ≤ length model.now }
    ensures front { result ≡ take row_words model.now }
    ensures words { result ≡ pack row_words (row result) }
{
    let mut set = [0; Book::ROW_WORDS];
    set.copy_from_slice(&model[..Book::ROW_WORDS]);
    set
}

// Rows of their stated size, and how many of them count.
#[derive(Drop)]
struct System<'a> {
    all: &'a [u64],
    any: &'a [u64],
    count: usize,
}

impl<'a> Model for System<'a> {
    ghost use Rattle.std.specs.Prelude.{◌≤◌, length};
    ghost use Rattle.limits.specs.Book.{atoms, row_area};
    ghost use Rattle.rounds.specs.Rows.{Rows};

    ghost Value = { Rows };

    ghost view = { λ s. record { all = s.all.now; any = s.any.now; count = s.count } };

    ghost invariant = { λ s. (row_area ≤ length s.all.now) × (row_area ≤ length s.any.now) × (s.count ≤ atoms) };
}

impl<'a> System<'a> {
    // Judges the areas: each has its stated size, the count is within its limit, and neither a bit, of the start set too, nor a row lies at or
    // past it.
    #[tactic(auto, using(crate::proofs::Calls::judging))]
    fn judge(
        all: &'a [u64],
        any: &'a [u64],
        model: &[u64],
        count: usize,
    ) -> Result<System<'a>, Refusal>
        ensures ok { IfOk result (λ s. (s ≡ record { all = all.now; any = any.now; count = count })
            × RoundsLong (record { all = all.now; any = any.now; model = model.now })
            × (formed_system (record { all = all.now; any = any.now; model = model.now }) count ≡ true)) }
        ensures err { IfErr result (λ e. record { number = number_of e; rounds = 0; model = model.now }
            ≡ rounds_call (record { all = all.now; any = any.now; model = model.now }) count) }
    {
        if rows_short(all.len(), any.len(), model.len()) {
            return Err(Refusal::ShortArea);
        }
        let formed = rowcheck::formed(all, count)
            && rowcheck::formed(any, count)
            && row::ends(&model[..Book::ROW_WORDS], count);
        if !formed {
            return Err(Refusal::IllFormed);
        }
        Ok(System { all, any, count })
    }

    // Whether atom i is in the set after v: an "any" row that is not empty has to meet v, else the "all" row to lie within it.
    #[tactic(auto, using(crate::proofs::Stepping::joining))]
    fn joins(&self, v: &[u64; Book::ROW_WORDS], i: usize) -> bool
        requires { i < atoms }
        ensures { result ≡ set_after self.now.all self.now.any (row v.now) i }
    {
        let any = row::nth(self.any, i, Book::ROW_WORDS);
        if row::empty(any) {
            return row::within(row::nth(self.all, i, Book::ROW_WORDS), v);
        }
        row::meets(any, v)
    }

    // The rounds from the start set in the model area, which then has the last set; a lost start atom leaves it as it was.
    fn run(&self, model: &mut [u64]) -> Result<usize, Refusal>
        requires { RoundsLong (with_start self.now model.old)
            × (formed_system (with_start self.now model.old) self.now.count ≡ true) }
        ensures { record { number = number_in result; rounds = count_in (λ r. r) result; model = model.new }
            ≡ rounds_call (with_start self.now model.old) self.now.count }
    {
        let start = front(model);
        let next = self.step(&start);
        if !row::within(&start, &next) {
            return Err(Refusal::StartLost);
        }
        let reached = until_still(self, start, next);
        model[..Book::ROW_WORDS].copy_from_slice(&reached.set);
        Ok(reached.rounds)
    }
}

// A round over the counted atoms.
impl<'a> Round for System<'a> {
    ghost use Rattle.systems.specs.Rows.{below};
    ghost use Rattle.rounds.specs.Step.{set_after};

    ghost atoms = { λ s. s.count };

    ghost after = { λ s v. below s.count (set_after s.all s.any v) };

    // It stays behind a call: with its code in the loop of rounds the sets lie in registers, and its rows are looked at word by word.
    #[tactic(auto, using(crate::proofs::Stepping::stepping_on))]
    #[inline(never)]
    fn step(&self, v: &[u64; Book::ROW_WORDS]) -> [u64; Book::ROW_WORDS] {
        let mut next = [0; Book::ROW_WORDS];
        for i in 0..self.count {
            if self.joins(v, i) {
                row::insert(&mut next, i);
            }
        }
        next
    }
}

// Makes the rounds over the counted atoms, from the start set in the model area, and leaves the last set there; a lost start atom leaves it
// as it was. For a caller that knows rows and start set to be in order, as after standardising: they are not judged again. The areas are lent one by
// one, here and in `run`, as the steps before have them: a struct of them would be made for the one call.
#[tactic(auto, using(crate::proofs::Calls::system_few))]
pub fn run_formed(
    all: &[u64],
    any: &[u64],
    model: &mut [u64],
    count: usize,
) -> Result<usize, Refusal>
    requires { RoundsLong (record { all = all.now; any = any.now; model = model.old })
        × (formed_system (record { all = all.now; any = any.now; model = model.old }) count ≡ true) }
    ensures { record { number = number_in result; rounds = count_in (λ r. r) result; model = model.new }
        ≡ rounds_call (record { all = all.now; any = any.now; model = model.old }) count }
{
    System { all, any, count }.run(model)
}

// Judges rows and start set, then makes the rounds; a refusal leaves the model area as it was.
pub fn run(all: &[u64], any: &[u64], model: &mut [u64], count: usize) -> Result<usize, Refusal>
    ensures { record { number = number_in result; rounds = count_in (λ r. r) result; model = model.new }
        ≡ rounds_call (record { all = all.now; any = any.now; model = model.old }) count }
{
    let system = System::judge(all, any, model, count)?;
    system.run(model)
}
