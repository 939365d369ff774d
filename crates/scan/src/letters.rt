// The letters of a lent table that passes: an entry for each byte value, 0 for a byte that no name has, else the byte that it counts as.
ghost use Rattle.std.specs.Prelude.{◌≡◌, false, IfOk};
ghost use Rattle.limits.specs.Refusal.{number_in};
ghost use Rattle.grammar.specs.Bytes.{letters};
ghost use Rattle.grammar.specs.Letters.{FoldTable, any_reserved, any_unsettled, letters_cause};

use limits::{Book, Refusal};
use std::marker::Model;

// Bytes that no folding lets into a name: they have entry 0 in every table that passes.
const RESERVED: [u8; 9] = [0, b'\t', b'\n', b'\r', b' ', b'!', b'#', b':', b'@'];

// Whether a reserved byte has an entry.
fn any_reserved(table: &[u8; Book::LETTER_BYTES]) -> bool
    ensures { result ≡ any_reserved table.now }
{
    RESERVED.iter().any(|&b| table[usize::from(b)] != 0)
}

// Whether an entry, not zero, is not its own.
fn any_unsettled(table: &[u8; Book::LETTER_BYTES]) -> bool
    ensures { result ≡ any_unsettled table.now }
{
    table
        .iter()
        .any(|&entry| entry != 0 && table[usize::from(entry)] != entry)
}

#[derive(Drop)]
pub struct Letters<'a> {
    table: &'a [u8],
}

impl<'a> Model for Letters<'a> {
    ghost use Rattle.std.specs.Prelude.{List, ℕ};
    ghost use Rattle.grammar.specs.Letters.{FoldTable};

    ghost Value = { List ℕ };

    ghost view = { λ it. it.table.now };

    ghost invariant = { λ it. FoldTable it.table.now };
}

impl<'a> Letters<'a> {
    // Of a table that is known to pass.
    pub fn of(table: &'a [u8]) -> Letters<'a>
        requires { FoldTable table.now }
        ensures { result ≡ table.now }
    {
        Letters { table }
    }

    // What is judged of a lent table. A call that is lent other areas too asks first whether one of them is too short.
    #[tactic(auto, using(crate::proofs::Tables::cause_short, crate::proofs::Tables::cause_reserved, crate::proofs::Tables::cause_unsettled, crate::proofs::Tables::cause_none, crate::proofs::Tables::table_passes))]
    pub fn judge(table: &'a [u8]) -> Result<Letters<'a>, Refusal>
        ensures number { number_in result ≡ letters_cause false table.now }
        ensures letters { IfOk result (λ it. it ≡ table.now) }
    {
        let Some(entries) = table.first_chunk() else {
            return Err(Refusal::ShortArea);
        };
        let reserved = any_reserved(entries);
        let unsettled = any_unsettled(entries);
        if reserved {
            return Err(Refusal::ReservedByte);
        }
        if unsettled {
            return Err(Refusal::UnsettledEntry);
        }
        Ok(Letters { table })
    }

    // Does nothing: its contract says what is known of the table of each value.
    pub fn passes(&self)
        ensures { FoldTable self.now }
    {
        let _table = self.table;
    }

    // The letter of byte b. 0 stands for none, as in document 01's table and in the definition of its letters.
    #[tactic(auto, using(crate::proofs::Tables::at_byte))]
    pub fn fold(&self, b: u8) -> u8
        ensures { result ≡ letters self.now b }
    {
        self.table[usize::from(b)]
    }
}
