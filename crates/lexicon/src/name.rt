// A name where it stands in a text: a value that is seen as its folded bytes.
ghost use Rattle.std.specs.Prelude.{◌≡◌, ◌==◌, ◌≤◌, true, map, length, take, zip};
ghost use Rattle.std.specs.List.{list_all};
ghost use Rattle.limits.specs.Book.{name_bytes};
ghost use Rattle.grammar.specs.Bytes.{letters};
ghost use Rattle.grammar.specs.Lines.{run, is_name};
ghost use Rattle.tables.specs.Numbering.{same_bytes};
ghost use Rattle.tables.specs.Areas.{nonzero, padded};
ghost use Rattle.lexicon.specs.Index.{Storable};

use limits::Book;
use scan::letters::Letters;
use std::marker::Model;

// Its bytes as they stand, and the letters that fold them.
#[derive(Drop)]
pub struct Name<'a> {
    bytes: &'a [u8],
    folding: &'a Letters<'a>,
}

impl<'a> Model for Name<'a> {
    ghost use Rattle.std.specs.Prelude.{◌≡◌, true, map, List, ℕ};
    ghost use Rattle.grammar.specs.Bytes.{letters};
    ghost use Rattle.grammar.specs.Lines.{is_name};

    ghost Value = { List ℕ };

    ghost view = { λ it. map (letters it.folding.now) it.bytes.now };

    ghost invariant = { λ it. is_name (letters it.folding.now) it.bytes.now ≡ true };
}

// Whether a row begins with these bytes, folded. The row is cut to as many, so that the two end together: with a test of its own for the row's end
// at each byte, reading a book takes 4 to 6 % more instructions.
fn begins(row: &[u8], bytes: &[u8], folding: &Letters<'_>) -> bool
    requires { length bytes.now ≤ length row.now }
    ensures { result ≡ list_all (λ p. p.1 == letters folding.now p.0) (zip bytes.now (take (length bytes.now) row.now)) }
{
    bytes
        .iter()
        .zip(&row[..bytes.len()])
        .all(|(b, x)| *x == folding.fold(*b))
}

impl<'a> Name<'a> {
    pub fn new(bytes: &'a [u8], folding: &'a Letters<'a>) -> Name<'a>
        requires { is_name (letters folding.now) bytes.now ≡ true }
        ensures { result ≡ map (letters folding.now) bytes.now }
    {
        Name { bytes, folding }
    }

    // Whether a row of the name area is this name, padded with zeros.
    #[tactic(auto, using(crate::proofs::Spelling::compares))]
    pub fn fills(&self, row: &[u8]) -> bool
        requires { length row.now ≡ name_bytes }
        ensures { result ≡ same_bytes (run nonzero row.now) self.now }
    {
        let len = self.bytes.len();
        begins(row, self.bytes, self.folding) && (len == Book::NAME_BYTES || row[len] == 0)
    }

    // A row becomes this name, padded with zeros.
    #[tactic(auto, using(crate::proofs::Spelling::writes))]
    pub fn write(&self, row: &mut [u8])
        requires { length row.old ≡ name_bytes }
        ensures row { row.new ≡ padded self.now }
        ensures fine { Storable self.now }
    {
        row.fill(0);
        // By place: of a row that is written through a zip of its `iter_mut` no invariant can speak.
        for (i, b) in self.bytes.iter().enumerate() {
            row[i] = self.folding.fold(*b);
        }
    }
}
