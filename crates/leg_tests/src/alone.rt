// Whether a line of the stretch is alone: no other line of the map starts at the same node with the same attributes. Where it is, readings with
// other first lines need not be looked for.
ghost use Rattle.std.specs.Prelude.{◌<◌, length};
ghost use Rattle.model.specs.Map.{Map};
ghost use Rattle.work_area.specs.Area.{Held};
ghost use Rattle.sole_ways.specs.SoleWays.{Marks};
ghost use Rattle.leg_tests.specs.LegTests.{Alone};
ghost use Rattle.leg_tests.specs.Leaving.{Leaving};

use crate::leaving::{first_from, next_from};
use buffers::wide;
use legs::attributes::leaves_as;
use stretches::lines::LineList;
use work_area::{SECTOR_OUT, START};

// The number of the line at position `i`: 1 where it is alone.
pub fn alone_mark(work: &[u32], stretch: LineList, i: usize) -> u8
    requires bounds { i < length stretch.numbers.now }
    requires held { (m : Map) × Held work.now stretch.lines m × Leaving m stretch.lines work.now }
    ensures { (m : Map) → Held work.now stretch.entry.lines m → Leaving m stretch.entry.lines work.now
        → Marks (Alone m stretch.entry.lines stretch.entry.numbers.now i) result }
{
    let own = wide(stretch.numbers[i]);
    let v = stretch.node_of(work, i, START);
    let leaves = stretch.attributes_of(work, i, SECTOR_OUT);
    let mut at = first_from(work, stretch.lines, v);
    while 0 < at {
        if at - 1 != own {
            if leaves_as(work, stretch.lines, at - 1, leaves) {
                return 0;
            }
        }
        at = next_from(work, stretch.lines, at);
    }
    1
}
