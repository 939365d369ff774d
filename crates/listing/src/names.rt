// The names of a book, and those that are held: below n, with their bits set in the model area. Bits from n on are helpers.
ghost use Rattle.std.specs.Prelude.{◌≡◌, ◌≤◌, length};
ghost use Rattle.limits.specs.Book.{names, row_words};
ghost use Rattle.sets.specs.Set.{count};
ghost use Rattle.grammar.specs.Grammar.{joined};
ghost use Rattle.systems.specs.Rounds.{model_in};
ghost use Rattle.solving.specs.Listing.{held_names};

use copying::text::Text;
use limits::Book;
use rows::members::Members;
use scan::cursor::Cursor;
use tablecheck::NameArea;

// How many of the first n names are held: whole words, and the low bits of the word that n stands in.
pub fn count_held(model: &[u64], n: usize) -> usize
    requires { (n ≤ names) × (row_words ≤ length model.now) }
    ensures { result ≡ count n (model_in model.now) }
{
    let k = Book::word_of(n);
    let whole = rows::row::count(&model[..k]);
    let low = model[k] % (1 << Book::bit_of(n));
    // A u32 has no `From` to a usize, and a `try_from` would have an arm that never comes.
    whole + low.count_ones() as usize
}

// The names of a book, and a model area.
#[derive(Drop)]
pub struct Names<'a> {
    pub names: NameArea<'a>,
    pub model: &'a [u64],
    ghost long: { row_words ≤ length model.now },
}

impl<'a> Names<'a> {
    ghost use Rattle.listing.specs.Names.{spelt, held};
    ghost use Rattle.copying.specs.Text.{Room, Puts};

    // How many names are held.
    pub fn count_held(&self) -> usize
        ensures { result ≡ count self.now.names.count (held self.now) }
    {
        count_held(self.model, self.names.name_count())
    }

    // Puts each held name with its line end.
    pub fn put(&self, text: &mut Text<'_>)
        requires { Room text.old (joined (held_names (spelt self.now) (held self.now))) }
        ensures { Puts text.old (joined (held_names (spelt self.now) (held self.now))) text.new }
    {
        let count = self.names.name_count();
        let members = Members::of(&self.model[..Book::ROW_WORDS], 0);
        for a in members.take_while(|a| *a < count) {
            text.put(self.names.spelt(a));
            text.put_byte(Cursor::LINE_END);
        }
    }
}
