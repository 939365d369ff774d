// Bytes and checksums, for a writer that is lent. Each but `solved` says what the writer then holds, where its type says what it holds.
ghost use Rattle.std.specs.Prelude.{◌≡◌, ◌≤◌, ◌<◌, OnOk, IfOk, IfErr, [], ◌∷◌, ◌++◌, decimal, not, ◌==◌, take_while};
ghost use Rattle.std.specs.Io.KnownBytes.{Appends};
ghost use Rattle.checksum.specs.Total.{total, total_by};
ghost use Rattle.limits.specs.Refusal.{number_in, refused_number, refused_line, count_in};

use crate::lent::{Lent, LentRows, LentTables};
use areas::Entry;
use lexicon::look_up::name_in;
use limits::{Counts, Refusal, Refused};
use plain::Plain;
use solver::Solved;
use std::io;
use std::io::Write;

// What has this many atoms is printed whole.
pub const FEW: usize = 12;

pub fn line<W: Write>(out: &mut W, t: &[u8]) -> io::Result<()>
    ensures { OnOk result (Appends (W.contents out.old) (W.contents out.new) (t.now ++ 10 ∷ [])) }
{
    out.write_all(t)?;
    writeln!(out)
}

// A blank, then the checksum of an area.
pub fn total<W: Write, E: Entry>(out: &mut W, area: &[E]) -> io::Result<()>
    ensures { OnOk result (Appends (W.contents out.old) (W.contents out.new) (32 ∷ decimal (total_by E.number area.now))) }
{
    write!(out, " {}", checksum::total(area))
}

// The bytes of an area up to the first that is zero.
pub fn up_to_zero<W: Write>(out: &mut W, area: &[u8]) -> io::Result<()>
    ensures { OnOk result (Appends (W.contents out.old) (W.contents out.new) (take_while (λ b. not (b == 0)) area.now)) }
{
    out.write_all(name_in(area))
}

// The number of a refusal, or 0 where there is none.
pub fn number<T>(answer: &Result<T, Refusal>) -> usize
    ensures { result ≡ number_in answer.now }
{
    match answer {
        Ok(_) => 0,
        Err(cause) => cause.number(),
    }
}

// That number and the count that is returned, or 0.
pub fn counted<W: Write>(out: &mut W, answer: &Result<usize, Refusal>) -> io::Result<()>
    ensures { OnOk result (Appends (W.contents out.old) (W.contents out.new)
        (decimal (number_in answer.now) ++ 32 ∷ decimal (count_in (λ n. n) answer.now))) }
{
    write!(out, "{} {}", number(answer), answer.unwrap_or(0))
}

// What the reader answers.
pub fn read<W: Write>(out: &mut W, answer: &Result<Counts, Refused>) -> io::Result<()>
    ensures { OnOk result (Appends (W.contents out.old) (W.contents out.new)
        (decimal (refused_number answer.now)
        ++ 32 ∷ decimal (refused_line answer.now)
        ++ 32 ∷ decimal (count_in (λ r. r.names) answer.now)
        ++ 32 ∷ decimal (count_in (λ r. r.rules) answer.now))) }
{
    let (number, line, names, rules) = match answer {
        Ok(book) => (0, 0, book.names, book.rules),
        Err(refused) => (refused.cause.number(), refused.line, 0, 0),
    };
    write!(out, "{number} {line} {names} {rules}")
}

// What the solver answers. That its eight numbers are what the writer holds afterwards the search did not find.
pub fn solved<W: Write>(out: &mut W, answer: &Result<Solved, Refused>) -> io::Result<()> {
    match answer {
        Ok(r) => {
            write!(out, "0 0 {} {} {}", r.names, r.atoms, r.held)?;
            write!(out, " {} {} {}", r.rounds, r.c, r.h)
        }
        Err(refused) => {
            write!(out, "{} {}", refused.cause.number(), refused.line)?;
            write!(out, " 0 0 0 0 0 0")
        }
    }
}

// What the plain route answers.
pub fn plain<W: Write>(out: &mut W, answer: &Result<Plain, Refusal>) -> io::Result<()>
    ensures { OnOk result (Appends (W.contents out.old) (W.contents out.new)
        (112 ∷ 108 ∷ 97 ∷ 105 ∷ 110 ∷ 32 ∷ decimal (number_in answer.now)
        ++ 32 ∷ decimal (count_in (λ r. r.held) answer.now)
        ++ 32 ∷ decimal (count_in (λ r. r.rounds) answer.now))) }
{
    let (held, rounds) = match answer {
        Ok(r) => (r.held, r.rounds),
        Err(_) => (0, 0),
    };
    write!(out, "plain {} {held} {rounds}", number(answer))
}

// A checksum of heads and one of bodies.
pub fn rules<W: Write>(out: &mut W, tables: &LentTables) -> io::Result<()>
    ensures { OnOk result (Appends (W.contents out.old) (W.contents out.new)
        (32 ∷ decimal (total tables.now.heads.now) ++ 32 ∷ decimal (total tables.now.bodies.now))) }
{
    total(out, tables.heads)?;
    total(out, tables.bodies)
}

// A checksum of each area.
pub fn tables<W: Write>(out: &mut W, tables: &LentTables) -> io::Result<()>
    ensures { OnOk result (Appends (W.contents out.old) (W.contents out.new)
        (32 ∷ decimal (total tables.now.spellings.now)
        ++ 32 ∷ decimal (total tables.now.heads.now)
        ++ 32 ∷ decimal (total tables.now.bodies.now))) }
{
    total(out, tables.spellings)?;
    rules(out, tables)
}

fn rows<W: Write>(out: &mut W, rows: &LentRows) -> io::Result<()>
    ensures { OnOk result (Appends (W.contents out.old) (W.contents out.new)
        (32 ∷ decimal (total rows.now.all.now)
        ++ 32 ∷ decimal (total rows.now.any.now)
        ++ 32 ∷ decimal (total rows.now.spare.now)
        ++ 32 ∷ decimal (total rows.now.model.now))) }
{
    total(out, rows.all)?;
    total(out, rows.any)?;
    total(out, rows.spare)?;
    total(out, rows.model)
}

fn lent_areas<W: Write>(out: &mut W, lent: &Lent) -> io::Result<()>
    ensures { OnOk result (Appends (W.contents out.old) (W.contents out.new)
        ((32 ∷ decimal (total lent.now.tables.spellings.now)
        ++ 32 ∷ decimal (total lent.now.tables.heads.now)
        ++ 32 ∷ decimal (total lent.now.tables.bodies.now))
        ++ (32 ∷ decimal (total lent.now.rows.all.now)
        ++ 32 ∷ decimal (total lent.now.rows.any.now)
        ++ 32 ∷ decimal (total lent.now.rows.spare.now)
        ++ 32 ∷ decimal (total lent.now.rows.model.now))
        ++ 32 ∷ decimal (total lent.now.listing.now))) }
{
    tables(out, &lent.tables)?;
    rows(out, &lent.rows)?;
    total(out, lent.listing)
}

pub fn areas<W: Write>(out: &mut W, lent: &Lent) -> io::Result<()>
    ensures { OnOk result (Appends (W.contents out.old) (W.contents out.new)
        (((32 ∷ decimal (total lent.now.tables.spellings.now)
        ++ 32 ∷ decimal (total lent.now.tables.heads.now)
        ++ 32 ∷ decimal (total lent.now.tables.bodies.now))
        ++ (32 ∷ decimal (total lent.now.rows.all.now)
        ++ 32 ∷ decimal (total lent.now.rows.any.now)
        ++ 32 ∷ decimal (total lent.now.rows.spare.now)
        ++ 32 ∷ decimal (total lent.now.rows.model.now))
        ++ 32 ∷ decimal (total lent.now.listing.now))
        ++ 10 ∷ [])) }
{
    lent_areas(out, lent)?;
    writeln!(out)
}

// The listing of few atoms.
pub fn listing<W: Write>(
    out: &mut W,
    answer: &Result<Solved, Refused>,
    lent: &Lent,
) -> io::Result<()>
    ensures few { IfOk answer.now (λ r. r.atoms ≤ 12 →
        OnOk result (Appends (W.contents out.old) (W.contents out.new) (take_while (λ b. not (b == 0)) lent.now.listing.now))) }
    ensures many { IfOk answer.now (λ r. 12 < r.atoms → W.contents out.new ≡ W.contents out.old) }
    ensures refused { IfErr answer.now (λ e. W.contents out.new ≡ W.contents out.old) }
{
    if let Ok(r) = answer
        && r.atoms <= FEW
    {
        up_to_zero(out, lent.listing)?;
    }
    Ok(())
}
