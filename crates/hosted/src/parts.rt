// The line of a refusal, as it is printed.
ghost use Rattle.std.specs.Prelude.{◌≡◌, [], ◌∷◌, ◌++◌, ◌+◌, ◌≤◌, length};
ghost use Rattle.areas.specs.Area.{begun};
ghost use Rattle.grammar.specs.Bytes.{line_end};
ghost use Rattle.hosting.specs.Print.{refusal_line};

use copying::text::Text;
use listing::number::put_field;
use scan::cursor::Cursor;

// Puts the line of a refusal with its end at the front of the area, and returns the place after it.
// Any two numbers are put: a `Refused` would ask for one of the sixteen causes.
pub fn put_refusal(area: &mut [u8], number: usize, line: usize) -> usize
    requires { length (refusal_line number line) + 1 ≤ length area.old }
    ensures next { result ≡ length (refusal_line number line) + 1 }
    ensures text { area.new ≡ begun (refusal_line number line ++ (line_end ∷ [])) area.old }
{
    let mut text = Text::new(area);
    put_field(&mut text, b"DPL 0001 refused=", number);
    put_field(&mut text, b" line=", line);
    text.put_byte(Cursor::LINE_END);
    text.end()
}
