// Clearing a part of an area of any width.
ghost use Rattle.std.specs.Prelude.{◌≡◌, true, ◌≤◌, length};
ghost use Rattle.areas.specs.Area.{cleared_to};

use areas::Entry;

// Zeros from place `from` up to `to` of an area of any width.
pub fn clear<T: Entry>(area: &mut [T], from: usize, to: usize)
    requires { (from ≤ to) × (to ≤ length area.old) }
    ensures { area.new ≡ cleared_to T.ZERO from to area.old }
{
    area[from..to].fill(T::ZERO);
}

// The same; `fresh` says that the part is zero already, which is a fact about the area that the caller knows and hands on. A closure or a type
// parameter in its place would stand in the same signatures, with the same condition in more words.
pub fn clear_stale<T: Entry>(area: &mut [T], from: usize, to: usize, fresh: bool)
    requires { (from ≤ to) × (to ≤ length area.old) × (fresh ≡ true → cleared_to T.ZERO from to area.old ≡ area.old) }
    ensures { area.new ≡ cleared_to T.ZERO from to area.old }
{
    if fresh {
        return;
    }
    clear(area, from, to);
}
