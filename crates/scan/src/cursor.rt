// The reader's place and line number, by value: each method takes the cursor and returns it moved on, or what stands at it.
ghost use Rattle.std.specs.Prelude.{◌≡◌, ℕ, Bool, ◌+◌, ◌<◌, length, drop};
ghost use Rattle.limits.specs.Book.{text_bytes};
ghost use Rattle.grammar.specs.Bytes.{space, line_end, colon, hash, blank, not_end, name_byte, letters};
ghost use Rattle.grammar.specs.Grammar.{mark};
ghost use Rattle.grammar.specs.Lines.{starts};
ghost use Rattle.scan.specs.Hash.{hash_of};
ghost use Rattle.scan.specs.Places.{past_at, name_folded};

use crate::letters::Letters;
use limits::Book;

#[derive(Clone, Copy)]
pub struct Cursor {
    pub at: usize,
    pub line: usize,
}

// A run of name bytes: where it begins and ends, and the bucket of its folded bytes.
#[derive(Clone, Copy)]
pub struct Word {
    pub at: usize,
    pub end: usize,
    pub bucket: usize,
}

impl Word {
    // How many buckets the reader's index has.
    pub const BUCKETS: usize = 2 * Book::NAMES;

    // What the hash is reduced by at each byte, where every step waits for the one before: 2 to the 32, half a usize, so that a step
    // more fits and reducing costs next to nothing. A multiple of BUCKETS, so that the bucket, taken once at the end, is the same.
    const HASHES: usize = 4294967296;
}

// Whether a byte is a blank: a space or a tab.
#[tactic(auto, unfolding(grammar::specs::Bytes::blank))]
fn is_blank(b: u8) -> bool
    ensures { result ≡ blank b }
{
    b == Cursor::SPACE || b == Cursor::TAB
}

// Whether a byte is within a line: any but its end.
#[tactic(auto, unfolding(grammar::specs::Bytes::not_end))]
fn in_line(b: u8) -> bool
    ensures { result ≡ not_end b }
{
    b != Cursor::LINE_END
}

impl Cursor {
    pub const SPACE: u8 = b' ';

    pub const TAB: u8 = b'\t';

    pub const LINE_END: u8 = b'\n';

    pub const COLON: u8 = b':';

    pub const HASH: u8 = b'#';

    pub const MARK_BYTES: usize = 9;

    // The first line of a book.
    pub const MARK: [u8; Cursor::MARK_BYTES] = *b"DPB 0001\n";

    // Does nothing: its contract ties each constant to the byte or bytes of the grammar.
    pub fn bytes()
        ensures space { Cursor.SPACE ≡ space }
        ensures end { Cursor.LINE_END ≡ line_end }
        ensures colon { Cursor.COLON ≡ colon }
        ensures hash { Cursor.HASH ≡ hash }
        ensures size { Cursor.MARK_BYTES ≡ length mark }
    {}

    // The mark: its contract ties the constant to the grammar's.
    pub fn mark() -> [u8; 9]
        ensures { result ≡ mark }
    {
        Cursor::MARK
    }

    // At the first line after the mark, line 2.
    pub fn first_line() -> Cursor
        ensures { result ≡ record { at = length mark; line = 2 } }
    {
        Cursor {
            at: Cursor::MARK_BYTES,
            line: 2,
        }
    }

    // At another place of the cursor's line.
    pub fn moved(self, at: usize) -> Cursor
        ensures { result ≡ record { at = at; line = self.line } }
    {
        Cursor {
            at,
            line: self.line,
        }
    }

    // Past the bytes that stay. A loop, for medians within 3 % of before: by a chain, short names took 11 % more instructions, and remarks 3.7 %.
    fn past<F: Fn(u8) -> bool>(self, text: &[u8], stays: F) -> Cursor
        requires callable { F.IsAlwaysCallable stays }
        ensures { (p : ℕ → Bool) → ((b : ℕ) (r : Bool) → F.post stays b r → r ≡ p b)
            → result ≡ record { at = past_at p text.now self.at; line = self.line } }
    {
        for at in self.at..text.len() {
            if !stays(text[at]) {
                return self.moved(at);
            }
        }
        self.moved(self.at.max(text.len()))
    }

    // Past the blanks at the cursor.
    pub fn past_blanks(self, text: &[u8]) -> Cursor
        ensures { result ≡ record { at = past_at blank text.now self.at; line = self.line } }
    {
        self.past(text, is_blank)
    }

    // At the end of the cursor's line.
    pub fn past_line(self, text: &[u8]) -> Cursor
        ensures { result ≡ record { at = past_at not_end text.now self.at; line = self.line } }
    {
        self.past(text, in_line)
    }

    // On the next line, past the line end at the cursor.
    pub fn next_line(self) -> Cursor
        requires { (self.at < text_bytes) × (self.line < text_bytes) }
        ensures { result ≡ record { at = self.at + 1; line = self.line + 1 } }
    {
        Cursor {
            at: self.at + 1,
            line: self.line + 1,
        }
    }

    // Whether the byte at the cursor is b.
    pub fn sees(self, text: &[u8], b: u8) -> bool
        ensures { result ≡ starts b (drop self.at text.now) }
    {
        text.get(self.at) == Some(&b)
    }

    // The run of name bytes at the cursor. A loop for the same reason: by a chain, a walk over words of one byte took 19 % more instructions.
    pub fn word(self, text: &[u8], folding: &Letters<'_>) -> Word
        ensures begins { result.at ≡ self.at }
        ensures ends { result.end ≡ past_at (name_byte (letters folding.now)) text.now self.at }
        ensures bucket { result.bucket ≡ hash_of (name_folded (letters folding.now) text.now self.at) }
    {
        let mut end = self.at;
        let mut hash = 0;
        for i in self.at..text.len() {
            let b = folding.fold(text[i]);
            let ends = b == 0;
            if ends {
                break;
            }
            hash = (hash * 31 + usize::from(b)) % Word::HASHES;
            end = i + 1;
        }
        Word {
            at: self.at,
            end,
            bucket: hash % Word::BUCKETS,
        }
    }
}
