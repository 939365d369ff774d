// The listing: one head line, then each held name in number order.
#![tactic(auto)]

ghost use Rattle.std.specs.Prelude.{◌≡◌, ◌+◌, ◌≤◌, length};
ghost use Rattle.limits.specs.Book.{atoms, folds as fold_limit, listing_bytes};
ghost use Rattle.listing.specs.Names.{spelt, held};
ghost use Rattle.listing.specs.Write.{listing_of};

pub mod head;
pub mod names;
pub mod number;

use copying::text::Text;
use limits::Book;
use names::Names;

// How many names are held, and where the text ends.
#[derive(Clone, Copy)]
pub struct Written {
    pub held: usize,
    pub end: usize,
}

// Writes the listing of a book's names, zero after it.
pub fn write(book: &Names<'_>, folds: usize, rounds: usize, listing: &mut [u8]) -> Written
    requires { (folds ≤ fold_limit) × (rounds ≤ atoms + 1) × (listing_bytes ≤ length listing.old) }
    ensures { record { held = result.held; end = result.end; area = listing.new }
        ≡ listing_of (spelt book.now) (held book.now) folds rounds listing.old }
{
    let held = book.count_held();
    let mut text = Text::new(listing);
    head::put_head(&mut text, book.names.name_count(), held, folds, rounds);
    book.put(&mut text);
    let end = text.end();
    rows::clear::clear(listing, end, Book::LISTING_BYTES);
    Written { held, end }
}
