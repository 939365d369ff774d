// Whether tables are in order: names, unused rows, and numbering by first appearance.
#![tactic(auto)]

ghost use Rattle.std.specs.Prelude.{◌≡◌, ◌≤◌, length};
ghost use Rattle.std.specs.Bool.{then_some};
ghost use Rattle.limits.specs.Book.{names, name_area, rules, body_area};
ghost use Rattle.grammar.specs.Bytes.{letters};
ghost use Rattle.tables.specs.Areas.{Areas, rule_tables};
ghost use Rattle.tables.specs.Writing.{well_formed};

use limits::{Book, Counts};
use order::rules_formed;
use scan::letters::Letters;
use std::marker::Model;
use ways::RuleArea;

pub mod names;
pub mod order;
pub mod zeros;

// A lent name area, at least as long as a book's, and how many names are in use.
#[derive(Drop)]
pub struct NameArea<'a> {
    spellings: &'a [u8],
    count: usize,
}

impl<'a> Model for NameArea<'a> {
    ghost use Rattle.std.specs.Prelude.{◌≤◌, length};
    ghost use Rattle.limits.specs.Book.{names, name_area};
    ghost use Rattle.tablecheck.specs.Lent.{Names};

    ghost Value = { Names };

    ghost view = { λ t. record { area = t.spellings.now; count = t.count } };

    ghost invariant = { λ t. (name_area ≤ length t.spellings.now) × (t.count ≤ names) };
}

impl<'a> NameArea<'a> {
    // The area of n names.
    pub fn of(spellings: &'a [u8], n: usize) -> NameArea<'a>
        requires { (name_area ≤ length spellings.now) × (n ≤ names) }
        ensures { result ≡ record { area = spellings.now; count = n } }
    {
        NameArea {
            spellings,
            count: n,
        }
    }

    // How many names are in use.
    pub fn name_count(&self) -> usize
        ensures count { result ≡ self.now.count }
        ensures bound { result ≤ names }
    {
        self.count
    }
}

// Lent tables: the names apart from the rules, so that what asks for the one asks nothing of the other.
#[derive(Drop)]
pub struct Tables<'a> {
    pub names: NameArea<'a>,
    pub rules: RuleArea<'a>,
}

// The tables, where they are those that some book reads to, under the folding. The areas are taken one by one: a struct of the
// loans would be made for this one call and taken apart in it.
#[tactic(auto, using(crate::proofs::Formed::outcomes))]
pub fn judge<'a>(
    spellings: &'a [u8],
    heads: &'a [u16],
    bodies: &'a [u64],
    folding: &Letters<'_>,
    counts: Counts,
) -> Option<Tables<'a>>
    requires { (name_area ≤ length spellings.now) × (rules ≤ length heads.now) × (body_area ≤ length bodies.now) }
    ensures { let lent : Areas = record { spellings = spellings.now; heads = heads.now; bodies = bodies.now } in
        result ≡ then_some (well_formed (letters folding.now) lent counts.names counts.rules) (record {
          names = record { area = spellings.now; count = counts.names };
          rules = record { tables = rule_tables heads.now bodies.now; count = counts.rules };
        }) }
{
    if counts.names > Book::NAMES || counts.rules > Book::RULES {
        return None;
    }
    let names = NameArea::of(spellings, counts.names);
    let rules = RuleArea::of(heads, bodies, counts.rules);
    if !names.names_formed(folding) {
        return None;
    }
    rules_formed(&rules, counts.names).then_some(Tables { names, rules })
}
