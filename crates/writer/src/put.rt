// The text of tables, put into an area.
ghost use Rattle.std.specs.Prelude.{◌≡◌, ◌<◌, ◌≤◌, length};
ghost use Rattle.limits.specs.Book.{rules};
ghost use Rattle.areas.specs.Area.{begun};
ghost use Rattle.rows.specs.Members.{left};
ghost use Rattle.copying.specs.Text.{Room, Puts};
ghost use Rattle.writer.specs.Spelt.{rest, line, lines, text_of};

use copying::text::Text;
use rows::members::Members;
use scan::cursor::Cursor;
use tablecheck::order::body_names;
use tablecheck::{NameArea, Tables};

// The names that a walk over a body has before it, each after a space.
pub fn put_rest(lent: &NameArea<'_>, members: Members<'_>, text: &mut Text<'_>)
    requires { Room text.old (rest lent.now (left members)) }
    ensures { Puts text.old (rest lent.now (left members.entry)) text.new }
{
    for a in members {
        text.put_byte(Cursor::SPACE);
        text.put(lent.spelt(a));
    }
}

// Rule j, its line end aside.
#[tactic(auto, using(crate::proofs::Rules::rule_steps))]
pub fn put_rule(tables: &Tables<'_>, j: usize, text: &mut Text<'_>)
    requires rule { j < rules }
    requires room { Room text.old (line tables.now j) }
    ensures { Puts text.old (line tables.now j) text.new }
{
    text.put(tables.names.spelt(tables.rules.head(j)));
    text.put_byte(Cursor::COLON);
    let mut body = body_names(&tables.rules, j);
    if let Some(a) = body.next() {
        text.put(tables.names.spelt(a));
        put_rest(&tables.names, body, text);
    }
}

// Every rule with its line end.
pub fn put_rules(tables: &Tables<'_>, text: &mut Text<'_>)
    requires { Room text.old (lines tables.now) }
    ensures { Puts text.old (lines tables.now) text.new }
{
    for j in 0..tables.rules.rule_count() {
        put_rule(tables, j, text);
        text.put_byte(Cursor::LINE_END);
    }
}

// The mark and the rules, from the front of the area.
pub fn put_text(tables: &Tables<'_>, area: &mut [u8])
    requires { length (text_of tables.now) ≤ length area.old }
    ensures { area.new ≡ begun (text_of tables.now) area.old }
{
    let mut text = Text::new(area);
    text.put(&Cursor::MARK);
    put_rules(tables, &mut text);
}
