// The look-up of a name by its number, as a part of the lent name area itself.
ghost use Rattle.std.specs.Prelude.{◌≡◌, ◌+◌, ◌==◌, not, length, take_while};
ghost use Rattle.tables.specs.Areas.{look_up};
ghost use Rattle.lexicon.specs.Place.{look_up_at};

use limits::Book;

// How many bytes of a row are the name's: those before its first zero, or all.
fn name_len(row: &[u8]) -> usize
    ensures { result ≡ length (take_while (λ b. not (b == 0)) row.now) }
{
    row.iter().take_while(|b| **b != 0).count()
}

// Those bytes.
#[tactic(auto, using(crate::proofs::LookUp::name_front))]
pub fn name_in(row: &[u8]) -> &[u8]
    ensures bytes { result.now ≡ take_while (λ b. not (b == 0)) row.now }
    ensures place { (result.ref_ptr.0 ≡ row.entry.ref_ptr.0) × (result.ref_ptr.1 ≡ row.entry.ref_ptr.1) }
{
    &row[..name_len(row)]
}

// The name of that number, as the part of the name area itself, without padding; the empty part where there is none.
#[tactic(auto, using(crate::proofs::LookUp::looks))]
pub fn look_up(spellings: &[u8], n: usize, a: usize) -> &[u8]
    ensures bytes { result.now ≡ look_up spellings.now n a }
    ensures place { (result.ref_ptr.0 ≡ spellings.entry.ref_ptr.0)
        × (result.ref_ptr.1 ≡ spellings.entry.ref_ptr.1 + look_up_at spellings.now n a) }
{
    if a < n && n <= Book::NAMES && Book::NAME_AREA <= spellings.len() {
        // Cut by hand: `nth` does not say where a row lies, which for rows of any type goes by the type's size.
        let at = Book::name_at(a);
        name_in(&spellings[at..at + Book::NAME_BYTES])
    } else {
        &spellings[..0]
    }
}
