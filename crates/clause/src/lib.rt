// The rule that a line says, found in one pass over its bytes and handed back as a value.
#![tactic(auto)]

ghost use Rattle.std.specs.Prelude.{◌≡◌, true, false, [], ◌∷◌, ◌<◌, length, drop, replicate, is_some, IfOk, IfSome};
ghost use Rattle.std.specs.Option.{unwrap_or};
ghost use Rattle.limits.specs.Book.{body_words, name_area};
ghost use Rattle.limits.specs.Refusal.{number_of, number_in};
ghost use Rattle.grammar.specs.Bytes.{line_end, name_byte, letters};
ghost use Rattle.grammar.specs.Lines.{starts, is_name, byte_fault, word_fault};
ghost use Rattle.scan.specs.Places.{past_at, name_run, name_folded};
ghost use Rattle.tables.specs.Numbering.{place};
ghost use Rattle.scan.specs.Hash.{hash_of};
ghost use Rattle.lexicon.specs.Same.{Same};
ghost use Rattle.clause.specs.Line.{LineEnds, line_at, unword};
ghost use Rattle.clause.specs.Found.{Kept, names_at, InOrder, Meeting, Onward, Bodied, Said};
ghost use Rattle.clause.specs.Held.{held, Run, at_in, room_in, head_in};

use lexicon::Lexicon;
use lexicon::name::Name;
use limits::{Book, Refusal};
use rows::row::insert;
use scan::cursor::{Cursor, Word};
use scan::letters::Letters;

// A text, and the letters that it is read by. The reader's pair of them has a bound on the text, too, for which `rule` does not ask.
#[derive(Clone, Copy)]
struct Source<'a> {
    text: &'a [u8],
    folding: &'a Letters<'a>,
}

// A name with the bucket that it lies in.
#[derive(Drop)]
struct Placed<'a> {
    name: Name<'a>,
    bucket: usize,
    ghost hashed: { bucket ≡ hash_of name },
}

// The name that a word is, where it is one: 1 to 32 bytes.
#[tactic(auto, using(crate::proofs::Naming::named))]
fn name<'a>(source: &Source<'a>, word: Word) -> Option<Placed<'a>>
    requires { Run (letters source.now.folding.now) source.now.text.now word }
    ensures name { IfSome result (λ n. (n.name ≡ name_folded (letters source.now.folding.now) source.now.text.now word.at)
        × (is_name (letters source.now.folding.now) (name_run (letters source.now.folding.now) source.now.text.now word.at) ≡ true)) }
    ensures none { result ≡ None
        → is_name (letters source.now.folding.now) (name_run (letters source.now.folding.now) source.now.text.now word.at) ≡ false }
{
    let some = word.at < word.end;
    if some && word.end - word.at <= Book::NAME_BYTES {
        return Some(Placed {
            name: Name::new(&source.text[word.at..word.end], source.folding),
            bucket: word.bucket,
        });
    }
    None
}

// That the line at a place has its end is a clause here and below: a value of the text and the place would be a new one at each step of the cursor.

// The cursor behind the word at it and behind the blanks that follow the word, still in its line. It is a step of the walk over a body.
#[tactic(auto, using(crate::proofs::Forms::past_word, crate::proofs::Forms::behind_in))]
#[inline(always)]
fn behind(source: &Source<'_>, cursor: Cursor, word: Word) -> Cursor
    requires line_ends { LineEnds source.now.text.now cursor.at }
    requires ends { word.end ≡ past_at (name_byte (letters source.now.folding.now)) source.now.text.now cursor.at }
    ensures at { result.at ≡ unword (letters source.now.folding.now) source.now.text.now cursor.at }
    ensures within { result.at < length source.now.text.now }
    ensures line { result.line ≡ cursor.line }
{
    source.folding.passes();
    cursor.moved(word.end).past_blanks(source.text)
}

// The fault at place `at` where no run is overlong: a barred byte, else the line.
#[tactic(auto, using(crate::proofs::Sorting::bytes))]
fn byte_fault(source: &Source<'_>, at: usize) -> Refusal
    requires { at < length source.now.text.now }
    ensures { number_of result ≡ byte_fault (letters source.now.folding.now) (line_at source.now.text.now at) }
{
    match source.text[at] {
        Cursor::LINE_END | Cursor::COLON | Cursor::SPACE | Cursor::TAB => Refusal::Line,
        b if source.folding.fold(b) != 0 => Refusal::Line,
        _ => Refusal::BarredByte,
    }
}

// The fault where a word is no name: an overlong run, else by the byte behind it.
#[tactic(auto, using(crate::proofs::Sorting::runs))]
fn word_fault(source: &Source<'_>, word: Word) -> Refusal
    requires line_ends { LineEnds source.now.text.now word.at }
    requires run { Run (letters source.now.folding.now) source.now.text.now word }
    ensures { number_of result ≡ word_fault (letters source.now.folding.now) (line_at source.now.text.now word.at) }
{
    source.folding.passes();
    let long = word.end - word.at > Book::NAME_BYTES;
    if long {
        return Refusal::LongName;
    }
    byte_fault(source, word.end)
}

// Who is handed a lexicon says that it has the same areas afterwards, since what a `&mut` lends may be lent anew. That its names are in order is
// asked for by a clause: of a lexicon in a struct of this crate's own, behind a `&mut`, the kit hands nothing back.

// A name that is none of those before it: it joins them, where there is room. Its number. It stays behind a call: with its code in the walk
// over a body, the place in the text lies in memory there.
#[inline(never)]
fn enter(lexicon: &mut Lexicon<'_>, name: &Placed<'_>) -> Option<usize>
    requires in_order { InOrder (held lexicon.old) }
    requires new { place (names_at (held lexicon.old)) name.now.name ≡ lexicon.old.count }
    ensures same { Same lexicon.old lexicon.new }
    ensures met { Meeting name.now.name (is_some result) (unwrap_or result 0) (held lexicon.old) (held lexicon.new) }
{
    let number = lexicon.count;
    let full = number == Book::NAMES;
    if full {
        return None;
    }
    lexicon.add(&name.name, name.bucket);
    Some(number)
}

// A name is met: its number, where it is known or there is room for it. Most names of a body are known, so the search stands where the body is
// walked.
#[inline(always)]
fn meet(lexicon: &mut Lexicon<'_>, name: &Placed<'_>) -> Option<usize>
    requires in_order { InOrder (held lexicon.old) }
    ensures same { Same lexicon.old lexicon.new }
    ensures met { Meeting name.now.name (is_some result) (unwrap_or result 0) (held lexicon.old) (held lexicon.new) }
{
    match lexicon.index().find(&name.name, name.bucket) {
        Some(known) => Some(known),
        None => enter(lexicon, name),
    }
}

// A name joins the row of a body. The head of the rule, which is lost as soon as a name finds no room. The row is a slice with its length as a
// clause, here and below, since `rule` is lent it so: an array of it would come by `first_chunk_mut`, with an arm that never comes.
fn join(
    lexicon: &mut Lexicon<'_>,
    name: &Placed<'_>,
    row: &mut [u64],
    head: Option<usize>,
) -> Option<usize>
    requires in_order { is_some head ≡ true → InOrder (held lexicon.old) }
    requires row_len { length row.old ≡ body_words }
    ensures same { Same lexicon.old lexicon.new }
    ensures head { IfSome result (λ h. head ≡ Some h) }
    ensures kept { Kept name_area lexicon.old.spellings.now lexicon.new.spellings.now }
    ensures joins { Onward (is_some head)
        (names_at (held lexicon.old)) (name.now.name ∷ []) (is_some result) (held lexicon.new)
        row.old row.new }
{
    let head = head?;
    let number = meet(lexicon, name)?;
    insert(row, number);
    Some(head)
}

// A rule that is found in a line: the cursor at the line's end, and the number of its head, where its names found room.
#[derive(Clone, Copy)]
pub struct Found {
    pub end: Cursor,
    pub head: Option<usize>,
}

// The body from the cursor to the line's end, behind a head: at fault where a word is no name. While there is room its names join the row.
fn body(
    source: &Source<'_>,
    cursor: Cursor,
    lexicon: &mut Lexicon<'_>,
    row: &mut [u64],
    head: Option<usize>,
) -> Result<Found, Refusal>
    requires line_ends { LineEnds source.now.text.now cursor.at }
    requires row_len { length row.old ≡ body_words }
    requires in_order { is_some head ≡ true → InOrder (held lexicon.old) }
    ensures same { Same lexicon.old lexicon.new }
    ensures head { IfOk result (λ f. (f.end.line ≡ cursor.line) × IfSome f.head (λ h. head ≡ Some h)) }
    ensures body { Bodied (letters source.now.folding.now) source.now.text.now cursor.at (is_some head) (held lexicon.old)
        (number_in result) (at_in result) (room_in result) (held lexicon.new)
        row.old row.new }
{
    source.folding.passes();
    let mut head = head;
    let mut here = cursor.past_blanks(source.text);
    while !here.sees(source.text, Cursor::LINE_END) {
        let word = here.word(source.text, source.folding);
        let Some(name) = name(source, word) else {
            return Err(word_fault(source, word));
        };
        head = join(lexicon, &name, row, head);
        here = behind(source, here, word);
    }
    Ok(Found { end: here, head })
}

// The rule from its head at the cursor to the line's end, its body in the row, which is lent clear. What is found does not depend on how
// many rules there are. A line at fault hands no cursor back: its number is that of the cursor that was handed in.
pub fn rule<'a>(
    text: &'a [u8],
    folding: &'a Letters<'a>,
    cursor: Cursor,
    lexicon: &mut Lexicon<'_>,
    row: &mut [u64],
) -> Result<Found, Refusal>
    requires line_ends { LineEnds text.now cursor.at × (starts line_end (drop cursor.at text.now) ≡ false) }
    requires clear { row.old ≡ replicate body_words 0 }
    requires in_order { InOrder (held lexicon.old) }
    ensures same { Same lexicon.old lexicon.new }
    ensures line { IfOk result (λ f. f.end.line ≡ cursor.line) }
    ensures said { Said (letters folding.now) text.now cursor.at (held lexicon.old)
        (number_in result) (at_in result) (room_in result) (head_in result) (held lexicon.new)
        row.new }
{
    folding.passes();
    let source = Source { text, folding };
    let head = cursor.word(text, folding);
    let Some(name) = name(&source, head) else {
        return Err(word_fault(&source, head));
    };
    let colon = behind(&source, cursor, head);
    if !colon.sees(text, Cursor::COLON) {
        return Err(byte_fault(&source, colon.at));
    }
    let number = meet(lexicon, &name);
    body(&source, colon.moved(colon.at + 1), lexicon, row, number)
}
