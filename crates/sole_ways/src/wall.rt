// Walls: where another way comes to a line of the stretch as soon as the stretch itself. It leaves the stretch somewhere, and no leg that has both places can
// be a sole way, whatever row it is of. So the rows that follow need no search to find that way again.
ghost use Rattle.std.specs.Prelude.{◌≡◌, ◌+◌, ◌-◌, ◌≤◌, ◌<◌, IfSome, length, get_or};
ghost use Rattle.model.specs.Map.{Map, greatest_line_count};
ghost use Rattle.model.specs.Lines.{Connected};
ghost use Rattle.model.specs.Work.{work_length};
ghost use Rattle.work_area.specs.Mirror.{mirror};
ghost use Rattle.search_cells.specs.Area.{Set, several, predecessor};
ghost use Rattle.buffers.specs.Decides.{Decides};
ghost use Rattle.sole_ways.specs.SoleWays.{Follows, Joins, Bars, WalledIf};

use crate::ahead::Along;
use crate::part::Part;
use buffers::wide;
use search_cells::cells::{SEVERAL, length_to, predecessor_at};
use stretches::lines::LineList;
use work_area::{FRC, field};

// Another way, over lines up to a class, leaves the stretch behind the line at position `from` and is back at the node at position `to`.
#[derive(Clone, Copy)]
pub struct Wall {
    pub from: usize,
    pub to: usize,
    pub class: u32,
}

// Whether a wall is known, and so the part, and each longer one from its start, has another way that is as short.
pub fn bars(wall: Option<Wall>, part: Part) -> bool
    ensures { Decides (Bars wall part) result }
{
    let Some(wall) = wall else {
        return false;
    };
    if wall.from < part.from {
        return false;
    }
    if part.to < wall.to {
        return false;
    }
    wall.class <= part.class
}

// The predecessor of line `l`, or `None` where there is none or there are several.
fn one_before(work: &[u32], l: usize) -> Option<usize>
    requires { (l < greatest_line_count) × (work_length ≤ length work.now) }
    ensures { IfSome result (λ x. (x + 1 ≡ predecessor work.now l) × (x + 1 < several)) }
{
    let x = predecessor_at(work, l);
    if x == 0 {
        return None;
    }
    if SEVERAL <= x {
        return None;
    }
    Some(wide(x) - 1)
}

// Goes back from line `last` by predecessors: the wall from where it meets the stretch behind position `i`, or `old`.
fn walk_back(
    work: &[u32],
    stretch: LineList,
    i: usize,
    along: Along,
    last: usize,
    old: Option<Wall>,
) -> Option<Wall>
    requires bounds { (along.to < length stretch.numbers.now) × (0 < along.to) }
    requires set { (m : Map) × Set m stretch.lines work.now × Follows m stretch.lines stretch.numbers.now i work.now along
        × Joins m stretch.lines stretch.numbers.now along.to work.now last }
    ensures { (m : Map) → Set m stretch.entry.lines work.now → Connected (mirror m) stretch.entry.numbers.now
        → Follows m stretch.entry.lines stretch.entry.numbers.now i work.now along → Joins m stretch.entry.lines stretch.entry.numbers.now along.to work.now last
        → WalledIf (mirror m) stretch.entry.numbers.now old → WalledIf (mirror m) stretch.entry.numbers.now result }
{
    let to = along.to;
    let mut at = last;
    let mut class = field(work, last, FRC);
    let mut k = to - 1;
    // A step goes back along the stretch or along the other way: no count of either.
    while i < k {
        let own = wide(stretch.numbers[k]);
        if at == own {
            return Some(Wall { from: k, to, class });
        }
        if length_to(work, at) <= length_to(work, own) {
            k -= 1;
        } else {
            let Some(x) = one_before(work, at) else {
                return old;
            };
            at = x;
            class = class.max(field(work, at, FRC));
        }
    }
    old
}

// The wall where the way to the line at position `along.to` does not come from the stretch's own line before it, or `old` where none is found.
pub fn find_wall(
    work: &[u32],
    stretch: LineList,
    i: usize,
    along: Along,
    old: Option<Wall>,
) -> Option<Wall>
    requires bounds { along.to < length stretch.numbers.now }
    requires set { (m : Map) × Set m stretch.lines work.now × Follows m stretch.lines stretch.numbers.now i work.now along }
    ensures { (m : Map) → Set m stretch.entry.lines work.now → Connected (mirror m) stretch.entry.numbers.now
        → Follows m stretch.entry.lines stretch.entry.numbers.now i work.now along
        → WalledIf (mirror m) stretch.entry.numbers.now old → WalledIf (mirror m) stretch.entry.numbers.now result }
{
    let to = along.to;
    let here = wide(stretch.numbers[to]);
    if along.limit < length_to(work, here) {
        return old;
    }
    let Some(last) = one_before(work, here) else {
        return old;
    };
    let before = wide(stretch.numbers[to - 1]);
    if last == before {
        return old;
    }
    if length_to(work, before) < length_to(work, last) {
        return old;
    }
    walk_back(work, stretch, i, along, last, old)
}
