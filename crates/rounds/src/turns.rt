// Rounds over a row of atoms, whatever makes them: from a start set on until one changes nothing.
ghost use Rattle.std.specs.Prelude.{◌≡◌};
ghost use Rattle.limits.specs.Book.{row_words};
ghost use Rattle.sets.specs.Steps.{rounds, reached};
ghost use Rattle.words.specs.Row.{row, pack};
ghost use Rattle.systems.specs.Rows.{below};
ghost use Rattle.rounds.specs.Turns.{Ready};

use limits::Book;
use rows::row;

// What makes the rounds.
pub trait Round {
    ghost use Rattle.std.specs.Prelude.{ℕ};
    ghost use Rattle.sets.specs.Set.{Set};

    // How many atoms there are, and the set that a round makes of a set.
    ghost atoms: { Self → ℕ };

    ghost after: { Self → Set → Set };

    // One round: the set after v.
    fn step(&self, v: &[u64; Book::ROW_WORDS]) -> [u64; Book::ROW_WORDS]
        ensures { result ≡ pack row_words (after self.now (row v.now)) };
}

// The set that changes no more, and the rounds made.
#[derive(Clone, Copy, Debug, PartialEq, Eq)]
pub struct Reached {
    pub set: [u64; Book::ROW_WORDS],
    pub rounds: usize,
}

// The rounds from a start set on, `next` being the set after it: counted up to and with the first that changes nothing.
pub fn until_still<R: Round>(
    by: &R,
    start: [u64; Book::ROW_WORDS],
    next: [u64; Book::ROW_WORDS],
) -> Reached
    requires { Ready (R.atoms by.now) (R.after by.now) start next }
    ensures rounds { result.rounds ≡ rounds (R.atoms by.now) (R.after by.now) (row start) }
    ensures set { result.set
        ≡ pack row_words (below (R.atoms by.now) (reached (R.atoms by.now) (R.after by.now) (row start))) }
{
    let mut set = start;
    let mut next = next;
    let mut made = 1;
    while !row::equal(&set, &next) {
        set = next;
        next = by.step(&set);
        made += 1;
    }
    Reached { set, rounds: made }
}
