// A book listed in areas of its own, and what the lister prints of it.
#![tactic(auto)]

ghost use Rattle.std.specs.Prelude.{◌≡◌, ◌≤◌};
ghost use Rattle.limits.specs.Book.{listing_bytes};
ghost use Rattle.limits.specs.Refusal.{refused_number, refused_line, count_in};
ghost use Rattle.grammar.specs.Bytes.{our_letters, letters};
ghost use Rattle.grammar.specs.Letters.{our_table};
ghost use Rattle.tables.specs.Reading.{book_of};
ghost use Rattle.solver.specs.End.{listed_end};
ghost use Rattle.hosting.specs.List.{list_call};
ghost use Rattle.hosting.specs.Print.{print_call};

pub mod parts;

use limits::{Book, Refused};
use parts::put_refusal;
use scan::letters::Letters;
use solver::Areas;

// Solves the book by our letters, in areas on its own stack; only the listing area is lent. Our table passes, so it is not judged. Returns
// where the text of the listing ends.
pub fn list(text: &[u8], folds: usize, listing: &mut [u8]) -> Result<usize, Refused>
    ensures listed { record { number = refused_number result; line = refused_line result; listing = listing.new }
        ≡ list_call our_table text.now folds listing.old }
    ensures end { count_in (λ end. end) result ≡ listed_end (refused_number result) (book_of (letters our_table) text.now) folds }
{
    let mut spellings = [0u8; Book::NAME_AREA];
    let mut heads = [0u16; Book::RULES];
    let mut bodies = [0u64; Book::BODY_AREA];
    let mut all = [0u64; Book::ROW_AREA];
    let mut any = [0u64; Book::ROW_AREA];
    let mut spare = [0u64; Book::ROW_AREA];
    let mut model = [0u64; Book::ROW_WORDS];
    let table = scan::table::folding();
    let folding = Letters::of(&table);
    let areas = Areas {
        spellings: &mut spellings,
        heads: &mut heads,
        bodies: &mut bodies,
        all: &mut all,
        any: &mut any,
        spare: &mut spare,
        model: &mut model,
        listing,
    };
    let solved = areas.solve(text, &folding, folds, true)?;
    Ok(solved.end)
}

// Lays out what the lister prints of a book, its listing after 8 folds or the line of its refusal, and returns how many bytes that is.
pub fn print(text: &[u8], out: &mut [u8; Book::LISTING_BYTES]) -> usize
    ensures printed { record { count = result; area = out.new } ≡ print_call our_letters text.now }
    ensures within { result ≤ listing_bytes }
{
    match list(text, Book::FOLDS, out) {
        Ok(end) => end,
        Err(refused) => {
            let end = put_refusal(out, refused.cause.number(), refused.line);
            rows::clear::clear(out, end, Book::LISTING_BYTES);
            end
        }
    }
}
