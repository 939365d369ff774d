// Numbering by first appearance, head before body.
ghost use Rattle.std.specs.Prelude.{◌≡◌, ◌*◌, ◌<◌, ◌≤◌, ◌&&◌};
ghost use Rattle.std.specs.Option.{IfSome};
ghost use Rattle.limits.specs.Book.{names, rules, body_words, body_area};
ghost use Rattle.sets.specs.Set.{members};
ghost use Rattle.rows.specs.Members.{left};
ghost use Rattle.tables.specs.Areas.{rule_at, rules_in};
ghost use Rattle.tables.specs.Writing.{zero_from, numbers_of, numbers_in};
ghost use Rattle.tablecheck.specs.Order.{head_end, met_after, ordered};

use crate::zeros::{spare_bodies_zero, spare_heads_zero};
use rows::members::Members;
use ways::RuleArea;

// The names of rule j's body, rising.
#[tactic(auto, using(crate::proofs::Meeting::body_left))]
pub fn body_names<'a>(area: &RuleArea<'a>, j: usize) -> Members<'a>
    requires { j < rules }
    ensures { left result ≡ members names (rule_at area.now.tables j).body 0 }
{
    Members::of(area.body(j), 0)
}

// How many numbers are met after those of rule j, where `met` are met before; none where they are out of order.
#[tactic(auto, using(crate::proofs::Meeting::rule_steps))]
pub fn rule_order(area: &RuleArea<'_>, j: usize, met: usize) -> Option<usize>
    requires { (j < rules) × (met ≤ head_end) }
    ensures order { result ≡ met_after met (numbers_of (rule_at area.now.tables j)) }
    ensures bound { IfSome result (λ count. count ≤ head_end) }
{
    let head = area.head(j);
    if head > met {
        return None;
    }
    let mut count = met.max(head + 1);
    for a in body_names(area, j) {
        if a > count {
            return None;
        }
        count = count.max(a + 1);
    }
    Some(count)
}

// Whether the rules in use are numbered by first appearance, n numbers in all.
pub fn in_order(area: &RuleArea<'_>, n: usize) -> bool
    ensures { result ≡ ordered n (numbers_in (rules_in area.now.tables area.now.count)) }
{
    (0..area.rule_count()).try_fold(0, |met, j| rule_order(area, j, met)) == Some(n)
}

// Whether the heads and bodies not in use are zero, and the rules in use are numbered in order, n numbers in all.
pub fn rules_formed(area: &RuleArea<'_>, n: usize) -> bool
    ensures { result
        ≡ ((zero_from area.now.count rules area.now.tables.heads && zero_from (area.now.count * body_words) body_area area.now.tables.bodies)
        && ordered n (numbers_in (rules_in area.now.tables area.now.count))) }
{
    spare_heads_zero(area) && spare_bodies_zero(area) && in_order(area, n)
}
