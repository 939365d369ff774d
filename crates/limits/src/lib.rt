// The book type: every limit of a book, once, and where the parts of an area begin. Why calls refuse.
#![tactic(auto)]

ghost use Rattle.std.specs.Prelude.{◌≡◌, ◌*◌, ◌/◌, ◌%◌, ◌≤◌};
ghost use Rattle.limits.specs.Book.{text_bytes, names, name_bytes, rules, atoms, folds, word_bits};
ghost use Rattle.limits.specs.Book.{row_words, body_words, letter_bytes, listing_bytes, name_area, body_area, row_area};

#[derive(Drop)]
pub struct Book;

impl Book {
    pub const TEXT_BYTES: usize = 16384;

    pub const NAMES: usize = 128;

    pub const NAME_BYTES: usize = 32;

    pub const RULES: usize = 256;

    pub const ATOMS: usize = 256;

    pub const FOLDS: usize = 8;

    pub const WORD_BITS: usize = 64;

    pub const ROW_WORDS: usize = 4;

    pub const BODY_WORDS: usize = 2;

    pub const LETTER_BYTES: usize = 256;

    pub const LISTING_BYTES: usize = 4608;

    pub const NAME_AREA: usize = Book::NAMES * Book::NAME_BYTES;

    pub const BODY_AREA: usize = Book::RULES * Book::BODY_WORDS;

    pub const ROW_AREA: usize = Book::ATOMS * Book::ROW_WORDS;

    // Does nothing: its contract ties each constant to the number of specs/.
    pub fn limits()
        ensures text { Book.TEXT_BYTES ≡ text_bytes }
        ensures names { Book.NAMES ≡ names }
        ensures spelling { Book.NAME_BYTES ≡ name_bytes }
        ensures rules { Book.RULES ≡ rules }
        ensures atoms { Book.ATOMS ≡ atoms }
        ensures folds { Book.FOLDS ≡ folds }
        ensures word { Book.WORD_BITS ≡ word_bits }
        ensures row { Book.ROW_WORDS ≡ row_words }
        ensures body { Book.BODY_WORDS ≡ body_words }
        ensures letters { Book.LETTER_BYTES ≡ letter_bytes }
        ensures listing { Book.LISTING_BYTES ≡ listing_bytes }
        ensures spellings { Book.NAME_AREA ≡ name_area }
        ensures bodies { Book.BODY_AREA ≡ body_area }
        ensures rows { Book.ROW_AREA ≡ row_area }
    {}

    // These three differ in a number and a limit. One over the width would ask of each caller that its product fits, which here the limit says.

    // The first byte of name i in the name area.
    pub fn name_at(i: usize) -> usize
        requires { i ≤ names }
        ensures { result ≡ i * name_bytes }
    {
        i * Book::NAME_BYTES
    }

    // The first word of body j in the body area.
    pub fn body_at(j: usize) -> usize
        requires { j ≤ rules }
        ensures { result ≡ j * body_words }
    {
        j * Book::BODY_WORDS
    }

    // The first word of row i in an area of rows.
    pub fn row_at(i: usize) -> usize
        requires { i ≤ atoms }
        ensures { result ≡ i * row_words }
    {
        i * Book::ROW_WORDS
    }

    // The word of a row that holds atom a.
    pub fn word_of(a: usize) -> usize
        ensures { result ≡ a / word_bits }
    {
        a / Book::WORD_BITS
    }

    // The bit of that word, the lowest being 0.
    pub fn bit_of(a: usize) -> usize
        ensures { result ≡ a % word_bits }
    {
        a % Book::WORD_BITS
    }
}

// How many names and rules a book has.
#[derive(Clone, Copy, Debug, PartialEq, Eq)]
pub struct Counts {
    pub names: usize,
    pub rules: usize,
}

// Why a call refuses. Documents 01 and 02 give each cause its number.
#[derive(Clone, Copy, Debug, PartialEq, Eq)]
pub enum Refusal {
    ShortArea,
    LongText,
    Mark,
    LastByte,
    Line,
    Names,
    Rules,
    Atoms,
    Folds,
    IllFormed,
    StartLost,
    LongWritten,
    LongName,
    BarredByte,
    ReservedByte,
    UnsettledEntry,
}

impl Refusal {
    ghost use Rattle.limits.specs.Refusal.{number_of};

    // Its number there.
    pub fn number(self) -> usize
        ensures { result ≡ number_of self }
    {
        match self {
            Refusal::ShortArea => 1,
            Refusal::LongText => 2,
            Refusal::Mark => 3,
            Refusal::LastByte => 4,
            Refusal::Line => 5,
            Refusal::Names => 6,
            Refusal::Rules => 7,
            Refusal::Atoms => 8,
            Refusal::Folds => 9,
            Refusal::IllFormed => 10,
            Refusal::StartLost => 11,
            Refusal::LongWritten => 12,
            Refusal::LongName => 13,
            Refusal::BarredByte => 14,
            Refusal::ReservedByte => 20,
            Refusal::UnsettledEntry => 21,
        }
    }
}

// A refusal with the line that it is for, 0 where it is for none, as document 01 prints it: an Option would become that 0 again in each host.
#[derive(Clone, Copy, Debug, PartialEq, Eq)]
pub struct Refused {
    pub cause: Refusal,
    pub line: usize,
}

// A cause that no line has.
impl From<Refusal> for Refused {
    ghost from_gives = { λ cause r. r ≡ record { cause = cause; line = 0 } };

    fn from(cause: Refusal) -> Refused {
        Refused { cause, line: 0 }
    }
}
