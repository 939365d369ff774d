// How long the text of tables is, before anything is written, so that a refusal leaves the area as it was. What `put` puts is counted here in the
// same order: one walk for both would go over a trait of what takes the parts, whose laws of room and putting, and the two impls of it, say more
// than these three functions.
ghost use Rattle.std.specs.Prelude.{◌≡◌, ◌+◌, ◌*◌, ◌<◌, ◌≤◌, length};
ghost use Rattle.limits.specs.Book.{names, name_bytes, rules};
ghost use Rattle.rows.specs.Members.{left};
ghost use Rattle.writer.specs.Spelt.{rest, line, text_of, line_bytes};

use rows::members::Members;
use scan::cursor::Cursor;
use tablecheck::order::body_names;
use tablecheck::{NameArea, Tables};

// The length of the names that a walk over a body has before it, each after a space.
pub fn rest_len(lent: &NameArea<'_>, members: Members<'_>) -> usize
    requires { length (left members) ≤ names }
    ensures len { result ≡ length (rest lent.now (left members.entry)) }
    ensures bound { result ≤ names * (name_bytes + 1) }
{
    members.map(|a| 1 + lent.spelt(a).len()).sum()
}

// The length of rule j, its line end aside.
#[tactic(auto, using(crate::proofs::Lengths::rule_bare, crate::proofs::Lengths::rule_full))]
pub fn rule_len(tables: &Tables<'_>, j: usize) -> usize
    requires { j < rules }
    ensures len { result ≡ length (line tables.now j) }
    ensures bound { result ≤ line_bytes }
{
    let head = tables.names.spelt(tables.rules.head(j)).len() + 1;
    let mut body = body_names(&tables.rules, j);
    match body.next() {
        Some(a) => head + tables.names.spelt(a).len() + rest_len(&tables.names, body),
        None => head,
    }
}

// The length of the text.
pub fn text_len(tables: &Tables<'_>) -> usize
    ensures { result ≡ length (text_of tables.now) }
{
    Cursor::MARK_BYTES
        + (0..tables.rules.rule_count())
            .map(|j| rule_len(tables, j) + 1)
            .sum::<usize>()
}
