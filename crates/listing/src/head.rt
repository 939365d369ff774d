// The head line of the listing.
ghost use Rattle.std.specs.Prelude.{[], ◌∷◌, ◌++◌};
ghost use Rattle.grammar.specs.Bytes.{line_end};
ghost use Rattle.solving.specs.Listing.{head_line};
ghost use Rattle.copying.specs.Text.{Room, Puts};

use crate::number::put_field;
use copying::text::Text;
use scan::cursor::Cursor;

// The head line with its end, for n names.
#[tactic(auto, using(crate::proofs::Heads::head_length))]
pub fn put_head(text: &mut Text<'_>, n: usize, held: usize, folds: usize, rounds: usize)
    requires { Room text.old (head_line n held folds rounds ++ (line_end ∷ [])) }
    ensures { Puts text.old (head_line n held folds rounds ++ (line_end ∷ [])) text.new }
{
    put_field(text, b"DPL 0001 names=", n);
    put_field(text, b" held=", held);
    put_field(text, b" folds=", folds);
    put_field(text, b" rounds=", rounds);
    text.put_byte(Cursor::LINE_END);
}
