// The public call that writes tables as text.
#![tactic(auto)]

ghost use Rattle.std.specs.Prelude.{◌≡◌, ◌≤◌, IfOk};
ghost use Rattle.limits.specs.Book.{text_bytes};
ghost use Rattle.limits.specs.Refusal.{number_in, count_in};
ghost use Rattle.tables.specs.Areas.{Areas};
ghost use Rattle.tables.specs.Writing.{write_call};
ghost use Rattle.writer.specs.Judged.{counted, write_cause};
ghost use Rattle.writer.specs.Short.{short_write};

use limits::{Book, Counts, Refusal};
use scan::letters::Letters;
use tablecheck::Tables;

pub mod measure;
pub mod put;

// Whether an area is shorter than its stated size. The reader's `tables_short` has three of these tests: the writer would depend on the reader, or both
// on one crate more, for three comparisons.
#[tactic(auto, unfolding(crate::specs::Short::short_write))]
pub fn too_short(spellings: usize, heads: usize, bodies: usize, text: usize) -> bool
    ensures { result ≡ short_write spellings heads bodies text }
{
    spellings < Book::NAME_AREA
        || heads < Book::RULES
        || bodies < Book::BODY_AREA
        || text < Book::TEXT_BYTES
}

// The tables, where the areas are long enough, the folding table passes and the tables are in order under it. The areas are taken one by one here and
// below: a struct of the loans would be made for this one call and taken apart in it.
fn judged<'a>(
    spellings: &'a [u8],
    heads: &'a [u16],
    bodies: &'a [u64],
    table: &[u8],
    counts: Counts,
    room: usize,
) -> Result<Tables<'a>, Refusal>
    ensures number { let lent : Areas = record { spellings = spellings.now; heads = heads.now; bodies = bodies.now } in
        number_in result ≡ write_cause table.now lent counts.names counts.rules room }
    ensures tables { let lent : Areas = record { spellings = spellings.now; heads = heads.now; bodies = bodies.now } in
        IfOk result (λ tables. (tables ≡ counted lent counts.names counts.rules) × (text_bytes ≤ room)) }
{
    if too_short(spellings.len(), heads.len(), bodies.len(), room) {
        return Err(Refusal::ShortArea);
    }
    let folding = Letters::judge(table)?;
    let formed = tablecheck::judge(spellings, heads, bodies, &folding, counts);
    formed.ok_or(Refusal::IllFormed)
}

// Writes so many names and rules as text, zero after it, by the letters of the lent table, and returns the size of the text; a refusal
// leaves the area as it was.
pub fn write(
    spellings: &[u8],
    heads: &[u16],
    bodies: &[u64],
    table: &[u8],
    counts: Counts,
    text: &mut [u8],
) -> Result<usize, Refusal>
    ensures { record { number = number_in result; size = count_in (λ size. size) result; text = text.new }
        ≡ write_call table.now
        (record { spellings = spellings.now; heads = heads.now; bodies = bodies.now })
        counts.names counts.rules text.old }
{
    let tables = judged(spellings, heads, bodies, table, counts, text.len())?;
    let size = measure::text_len(&tables);
    let too_long = size > Book::TEXT_BYTES;
    if too_long {
        return Err(Refusal::LongWritten);
    }
    put::put_text(&tables, text);
    rows::clear::clear(text, size, Book::TEXT_BYTES);
    Ok(size)
}
