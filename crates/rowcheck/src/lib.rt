// Whether areas of rows have their stated sizes, and rows keep their atom count.
#![tactic(auto)]

ghost use Rattle.std.specs.Prelude.{◌≡◌, ◌≤◌, length};
ghost use Rattle.limits.specs.Book.{row_area};
ghost use Rattle.systems.specs.Fold.{formed_all};
ghost use Rattle.rowcheck.specs.Short.{short_rows};

use limits::Book;
use rows::row;

// Whether an area of rows is shorter than its stated size, by the lengths of the "all", the "any" and the model area.
pub fn rows_short(all: usize, any: usize, model: usize) -> bool
    ensures { result ≡ short_rows all any model }
{
    all < Book::ROW_AREA || any < Book::ROW_AREA || model < Book::ROW_WORDS
}

// Whether an area of rows keeps the atom count: the count is within its limit, and neither a bit nor a row lies at or past it.
#[tactic(auto, using(crate::proofs::Counted::count_over))]
pub fn formed(area: &[u64], count: usize) -> bool
    requires { row_area ≤ length area.now }
    ensures { result ≡ formed_all area.now count }
{
    if Book::ATOMS < count {
        return false;
    }
    let kept = (0..count).all(|i| row::ends(row::nth(area, i, Book::ROW_WORDS), count));
    kept && row::empty(&area[Book::row_at(count)..Book::ROW_AREA])
}
