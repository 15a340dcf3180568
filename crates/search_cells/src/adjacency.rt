// The adjacency lists: the lines that leave each node on the mirrored map. On the map itself they arrive there.
ghost use Rattle.std.specs.Prelude.{◌≡◌, ◌-◌, ◌≤◌, ◌<◌, length};
ghost use Rattle.model.specs.Map.{Map};
ghost use Rattle.model.specs.Lines.{line_at};
ghost use Rattle.search_cells.specs.Area.{Mirrored, Chained, latest};
ghost use Rattle.search_cells.specs.Promises.{Linked};

use crate::cells::{FAR, LIST_WEIGHT, MARK_WEIGHT, MIRROR_START, NOTE_WEIGHT};
use buffers::{fill, wide};
use work_area::{HEADS, LENGTHS, NEXT, NODES, field};

// Makes the adjacency lists, and has no line reached or marked by another. Called once a map.
pub fn link(work: &mut [u32], lines: usize)
    requires { (m : Map) × Mirrored work.old lines m }
    ensures { (m : Map) → Mirrored work.old lines m → Linked work.old lines m work.new }
{
    fill(work, HEADS, NODES, 0);
    for i in 0..lines {
        let v = wide(field(work, i, MIRROR_START));
        work[NEXT + i] = work[HEADS + v] + MARK_WEIGHT * i as u32;
        work[HEADS + v] = (i + 1) as u32;
        work[LENGTHS + i] = FAR * NOTE_WEIGHT;
    }
}

// The adjacency list of node `v`: 1 + its first line, or 0 where there is none.
pub fn first_leaving(work: &[u32], lines: usize, v: usize) -> usize
    requires { (m : Map) × Mirrored work.now lines m × Chained work.now lines m × (v < length m.nodes) }
    ensures { (m : Map) → Mirrored work.now lines m → Chained work.now lines m → v < length m.nodes
        → result ≡ latest m v lines }
{
    wide(work[HEADS + v] % LIST_WEIGHT)
}

// The next line of an adjacency list, plus 1, after line `at - 1`; 0 at its end.
pub fn next_leaving(work: &[u32], lines: usize, at: usize) -> usize
    requires at_nonzero { (0 < at) × (at ≤ lines) }
    requires mirrored { (m : Map) × Mirrored work.now lines m × Chained work.now lines m }
    ensures { (m : Map) → Mirrored work.now lines m → Chained work.now lines m
        → result ≡ latest m (line_at m (at - 1)).start (at - 1) }
{
    wide(work[NEXT + (at - 1)] % LIST_WEIGHT)
}
