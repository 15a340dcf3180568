// Lists of the lines that leave each node, to find which lines are alone. They are made before the first search, in cells that searches use only while
// they are under way: so those are free, and the lists are gone once a search begins. The adjacency lists do not serve: they have the lines that arrive.
ghost use Rattle.std.specs.Prelude.{◌≡◌, ◌-◌, ◌≤◌, ◌<◌, length};
ghost use Rattle.model.specs.Map.{Map};
ghost use Rattle.model.specs.Lines.{line_at};
ghost use Rattle.work_area.specs.Area.{Held};
ghost use Rattle.search_cells.specs.Area.{Set, latest};
ghost use Rattle.leg_tests.specs.Leaving.{Leaving, Listed};

use buffers::{fill, wide};
use work_area::{LAST_BARRED, NODES, QUEUE, START, field};

// The cells: for each node 1 + the first line of its list, and for each line 1 + the next, or 0.
const FIRSTS: usize = LAST_BARRED;

const NEXTS: usize = QUEUE;

// Makes the lists.
pub fn list_leaving(work: &mut [u32], lines: usize)
    requires { (m : Map) × Set m lines work.old }
    ensures { (m : Map) → Set m lines work.old → Listed m lines lines work.old work.new }
{
    fill(work, FIRSTS, NODES, 0);
    for l in 0..lines {
        let v = wide(field(work, l, START));
        work[NEXTS + l] = work[FIRSTS + v];
        work[FIRSTS + v] = (l + 1) as u32;
    }
}

// The list of node `v`: 1 + its first line, or 0 where there is none, as its cell holds it.
pub fn first_from(work: &[u32], lines: usize, v: usize) -> usize
    requires { (m : Map) × Held work.now lines m × Leaving m lines work.now × (v < length m.nodes) }
    ensures { (m : Map) → Leaving m lines work.now → v < length m.nodes → result ≡ latest m v lines }
{
    wide(work[FIRSTS + v])
}

// The next line of a list, plus 1, after line `at - 1`; 0 at its end.
pub fn next_from(work: &[u32], lines: usize, at: usize) -> usize
    requires at_nonzero { (0 < at) × (at ≤ lines) }
    requires held { (m : Map) × Held work.now lines m × Leaving m lines work.now }
    ensures { (m : Map) → Leaving m lines work.now → result ≡ latest m (line_at m (at - 1)).start (at - 1) }
{
    wide(work[NEXTS + (at - 1)])
}
