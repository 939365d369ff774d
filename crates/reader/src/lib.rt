// The public call that reads a book into its tables, in one pass over the text.
#![tactic(auto)]

ghost use Rattle.std.specs.Prelude.{◌≡◌, IfOk, IfErr, true, false, List, [], ◌+◌, ◌*◌, ◌<◌, ◌≤◌, length, drop};
ghost use Rattle.limits.specs.Refusal.{number_of, number_in, refused_number, refused_line, count_in};
ghost use Rattle.limits.specs.Book.{text_bytes, names, name_bytes, rules, body_words, name_area, body_area};
ghost use Rattle.areas.specs.Area.{cleared};
ghost use Rattle.grammar.specs.Bytes.{line_end, not_end, letters};
ghost use Rattle.grammar.specs.Grammar.{Clause};
ghost use Rattle.grammar.specs.Lines.{starts};
ghost use Rattle.scan.specs.Places.{past_at};
ghost use Rattle.lexicon.specs.Same.{Same};
ghost use Rattle.tables.specs.Reading.{marked, ended, book_of};
ghost use Rattle.tables.specs.Areas.{outcome, read_call};
ghost use Rattle.clause.specs.Line.{LineEnds, form_from};
ghost use Rattle.clause.specs.Found.{InOrder, Said};
ghost use Rattle.clause.specs.Held.{held, at_in, room_in, head_in};
ghost use Rattle.reader.specs.Short.{short_read};
ghost use Rattle.reader.specs.State.{Tables, form_at, tables_in, SameRows, Booked, Stayed, Stepped, Lined, Unsettled};

use clause::{Found, rule};
use lexicon::Lexicon;
use limits::{Book, Counts, Refusal, Refused};
use rows::clear::clear;
use scan::cursor::{Cursor, Word};
use scan::letters::Letters;

// A text within its limit, and the letters that it is read by.
#[derive(Clone, Copy)]
struct Source<'a> {
    text: &'a [u8],
    folding: &'a Letters<'a>,
    ghost within: { length text.now ≤ text_bytes },
}

// Whether the text begins with the nine bytes of the mark.
fn begins(text: &[u8]) -> bool
    ensures { result ≡ marked text.now }
{
    text.starts_with(&Cursor::MARK)
}

// Where the body of the rule after the first m is found: in its own row. A full table lends its last row, since the line is refused then, and
// a refusal clears all rules.
fn row_after(m: usize) -> usize
    requires { m ≤ rules }
    ensures within { result + body_words ≤ body_area }
    ensures own { m < rules → result ≡ m * body_words }
{
    Book::body_at(m.min(Book::RULES - 1))
}

// The rule from its head at the cursor to the line's end, its body in the row that is lent, which is cleared for it.
fn rule_at(
    source: &Source<'_>,
    cursor: Cursor,
    lexicon: &mut Lexicon<'_>,
    row: &mut [u64],
) -> Result<Found, Refusal>
    requires line_ends { LineEnds source.now.text.now cursor.at × (starts line_end (drop cursor.at source.now.text.now) ≡ false) }
    requires row_len { length row.old ≡ body_words }
    requires in_order { InOrder (held lexicon.old) }
    ensures same { Same lexicon.old lexicon.new }
    ensures line { IfOk result (λ f. f.end.line ≡ cursor.line) }
    ensures said { Said (letters source.now.folding.now) source.now.text.now cursor.at (held lexicon.old)
        (number_in result) (at_in result) (room_in result) (head_in result) (held lexicon.new)
        row.new }
{
    row.fill(0);
    rule(source.text, source.folding, cursor, lexicon, row)
}

// The rules of a book while its lines are read: the lent areas of their heads and of their bodies, and how many there are. The names go beside
// them: one value of both was tried, and what a struct in a struct hands back of its `&mut` got no proof.
#[derive(Drop)]
struct RuleRows<'a> {
    pub heads: &'a mut [u16],
    pub bodies: &'a mut [u64],
    pub count: usize,
}

// A struct that holds a `&mut` may be handed back with another in its place: so each step says of the names and of the rules that it does not.
impl<'a> RuleRows<'a> {
    // The line whose head is at the cursor: its own fault comes first, then that the rules are full, then that the names are. Only a rule that
    // is not refused is counted.
    fn rule(
        &mut self,
        lexicon: &mut Lexicon<'_>,
        head: Cursor,
        source: &Source<'_>,
    ) -> Result<Cursor, Refusal>
        requires line_ends { LineEnds source.now.text.now head.at × (starts line_end (drop head.at source.now.text.now) ≡ false) }
        requires place { head.line ≤ head.at }
        requires booked { (cs : List Clause) × Booked cs (tables_in lexicon.old self.old) }
        ensures same_names { Same lexicon.old lexicon.new }
        ensures same_rows { SameRows self.old self.new }
        ensures stays { Stayed (tables_in lexicon.old self.old) (tables_in lexicon.new self.new) }
        ensures steps { (cs : List Clause)
            → Booked cs (tables_in lexicon.old self.old)
            → Stepped cs (form_from (letters source.now.folding.now) source.now.text.now head.at)
            (past_at not_end source.now.text.now head.at) head.line
            (number_in result) (count_in (λ c. c.at) result) (count_in (λ c. c.line) result)
            (tables_in lexicon.new self.new) }
    {
        source.folding.passes();
        let m = self.count;
        let at = row_after(m);
        let row = &mut self.bodies[at..at + Book::BODY_WORDS];
        let found = rule_at(source, head, lexicon, row)?;
        if m == Book::RULES {
            return Err(Refusal::Rules);
        }
        let Some(number) = found.head else {
            return Err(Refusal::Names);
        };
        // There is no `From` of a usize, and a `try_from` would have an arm that never comes.
        self.heads[m] = number as u16;
        self.count = m + 1;
        Ok(found.end.next_line())
    }

    // The line at the cursor: the cursor behind it.
    fn line(
        &mut self,
        lexicon: &mut Lexicon<'_>,
        cursor: Cursor,
        source: &Source<'_>,
    ) -> Result<Cursor, Refusal>
        requires line_ends { LineEnds source.now.text.now cursor.at }
        requires place { cursor.line ≤ cursor.at }
        requires booked { (cs : List Clause) × Booked cs (tables_in lexicon.old self.old) }
        ensures same_names { Same lexicon.old lexicon.new }
        ensures same_rows { SameRows self.old self.new }
        ensures stays { Stayed (tables_in lexicon.old self.old) (tables_in lexicon.new self.new) }
        ensures steps { (cs : List Clause)
            → Booked cs (tables_in lexicon.old self.old)
            → Stepped cs (form_at (letters source.now.folding.now) source.now.text.now cursor.at)
            (past_at not_end source.now.text.now cursor.at) cursor.line
            (number_in result) (count_in (λ c. c.at) result) (count_in (λ c. c.line) result)
            (tables_in lexicon.new self.new) }
    {
        source.folding.passes();
        if cursor.sees(source.text, Cursor::HASH) {
            let end = cursor.past_line(source.text);
            return Ok(end.next_line());
        }
        let head = cursor.past_blanks(source.text);
        if head.sees(source.text, Cursor::LINE_END) {
            return Ok(head.next_line());
        }
        self.rule(lexicon, head, source)
    }

    // The lines after the mark, up to the first that is refused.
    fn lines(&mut self, lexicon: &mut Lexicon<'_>, source: &Source<'_>) -> Result<(), Refused>
        requires formed { (marked source.now.text.now ≡ true) × (ended source.now.text.now ≡ true) }
        requires booked { Booked [] (tables_in lexicon.old self.old) }
        ensures same_names { Same lexicon.old lexicon.new }
        ensures same_rows { SameRows self.old self.new }
        ensures stays { Stayed (tables_in lexicon.old self.old) (tables_in lexicon.new self.new) }
        ensures reads { IfOk result (λ _. Lined (letters source.now.folding.now) source.now.text.now 0 0 (tables_in lexicon.new self.new)) }
        ensures refuses { IfErr result (λ e. (y : Tables) → y.lexicon.count ≡ 0 → y.count ≡ 0
            → Lined (letters source.now.folding.now) source.now.text.now (number_of e.cause) e.line y) }
    {
        let mut cursor = Cursor::first_line();
        while cursor.at < source.text.len() {
            cursor = self.line(lexicon, cursor, source).map_err(|cause| Refused {
                cause,
                line: cursor.line,
            })?;
        }
        Ok(())
    }
}

// The lines after the mark, read into the areas as they are lent. They are lent one by one: one value of the three was tried, and what the names
// hand back of its field got no proof.
fn book(
    source: &Source<'_>,
    spellings: &mut [u8],
    heads: &mut [u16],
    bodies: &mut [u64],
) -> Result<Counts, Refused>
    requires long { (name_area ≤ length spellings.old) × (rules ≤ length heads.old) × (body_area ≤ length bodies.old) }
    requires formed { (marked source.now.text.now ≡ true) × (ended source.now.text.now ≡ true) }
    ensures { Unsettled (letters source.now.folding.now) source.now.text.now (refused_number result) (refused_line result)
        (count_in (λ c. c.names) result) (count_in (λ c. c.rules) result)
        (record { spellings = spellings.old; heads = heads.old; bodies = bodies.old })
        (record { spellings = spellings.new; heads = heads.new; bodies = bodies.new }) }
{
    let mut first = [0u16; Word::BUCKETS];
    let mut prior = [0u16; Book::NAMES];
    let mut lexicon = Lexicon::new(spellings, &mut first, &mut prior);
    let mut rows = RuleRows {
        heads,
        bodies,
        count: 0,
    };
    rows.lines(&mut lexicon, source)?;
    Ok(Counts {
        names: lexicon.count,
        rules: rows.count,
    })
}

// Every area is cleared from its first unused row to its end. The areas are lent one by one, as to `book`.
fn settle(spellings: &mut [u8], heads: &mut [u16], bodies: &mut [u64], counts: Counts)
    requires { (counts.names ≤ names) × (counts.rules ≤ rules) × (name_area ≤ length spellings.old) × (rules ≤ length heads.old)
        × (body_area ≤ length bodies.old) }
    ensures spellings { spellings.new ≡ cleared (counts.names * name_bytes) name_area spellings.old }
    ensures heads { heads.new ≡ cleared counts.rules rules heads.old }
    ensures bodies { bodies.new ≡ cleared (counts.rules * body_words) body_area bodies.old }
{
    clear(spellings, Book::name_at(counts.names), Book::NAME_AREA);
    clear(heads, counts.rules, Book::RULES);
    clear(bodies, Book::body_at(counts.rules), Book::BODY_AREA);
}

// Reads a text within its limit into areas that are long enough, by the letters of the lent table: the work of the call below. In both the areas are
// lent one by one, as callers have them.
pub fn read_formed(
    text: &[u8],
    folding: &Letters<'_>,
    spellings: &mut [u8],
    heads: &mut [u16],
    bodies: &mut [u64],
) -> Result<Counts, Refused>
    requires name_area_in_bounds { (name_area ≤ length spellings.old) × (rules ≤ length heads.old) × (body_area ≤ length bodies.old) }
    requires text_len_bound { (length text.now ≤ text_bytes) }
    ensures { record {
      answer = record {
        number = refused_number result;
        line = refused_line result;
        names = count_in (λ c. c.names) result;
        rules = count_in (λ c. c.rules) result;
      };
      areas = record { spellings = spellings.new; heads = heads.new; bodies = bodies.new };
    }
        ≡ outcome (book_of (letters folding.now) text.now)
        (record { spellings = spellings.old; heads = heads.old; bodies = bodies.old }) }
{
    if !begins(text) {
        return Err(Refusal::Mark.into());
    }
    if text[text.len() - 1] != Cursor::LINE_END {
        return Err(Refusal::LastByte.into());
    }
    let source = Source { text, folding };
    let answer = book(&source, spellings, heads, bodies);
    let used = answer.unwrap_or(Counts { names: 0, rules: 0 });
    settle(spellings, heads, bodies, used);
    answer
}

// Whether an area of the tables is shorter than its stated size, by their lengths.
#[tactic(auto, unfolding(crate::specs::Short::short_read))]
pub fn tables_short(spellings: usize, heads: usize, bodies: usize) -> bool
    ensures { result ≡ short_read spellings heads bodies }
{
    spellings < Book::NAME_AREA || heads < Book::RULES || bodies < Book::BODY_AREA
}

// Reads the text into the areas, by the letters of the lent table.
#[tactic(auto, using(crate::proofs::Calling::call_short, crate::proofs::Calling::call_long))]
pub fn read(
    text: &[u8],
    table: &[u8],
    spellings: &mut [u8],
    heads: &mut [u16],
    bodies: &mut [u64],
) -> Result<Counts, Refused>
    ensures { record {
      answer = record {
        number = refused_number result;
        line = refused_line result;
        names = count_in (λ c. c.names) result;
        rules = count_in (λ c. c.rules) result;
      };
      areas = record { spellings = spellings.new; heads = heads.new; bodies = bodies.new };
    }
        ≡ read_call table.now text.now
        (record { spellings = spellings.old; heads = heads.old; bodies = bodies.old }) }
{
    if tables_short(spellings.len(), heads.len(), bodies.len()) {
        return Err(Refusal::ShortArea.into());
    }
    let folding = Letters::judge(table)?;
    if Book::TEXT_BYTES < text.len() {
        return Err(Refusal::LongText.into());
    }
    read_formed(text, &folding, spellings, heads, bodies)
}
