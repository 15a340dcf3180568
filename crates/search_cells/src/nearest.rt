// Of the lines that end at a node, which is nearest: as the cell of a node has it.
ghost use Rattle.model.specs.Map.{greatest_line_count};
ghost use Rattle.model.specs.Work.{work_length};
ghost use Rattle.search_cells.specs.Area.{length_to, NearerBy};
ghost use Rattle.std.specs.Prelude.{◌≡◌, ◌≤◌, ◌<◌, length};

use crate::cells::{KEY_WEIGHT, SEVERAL, length_to};
use buffers::wide;

// A node's cell `x` updated for line `l`, which ends at the node, and to which the length is `to`.
pub fn nearer(work: &[u32], x: u32, l: usize, to: u32, limit: u32) -> u32
    requires { (l < greatest_line_count) × (work_length ≤ length work.now) × (to ≡ length_to work.now l) }
    ensures { NearerBy limit work.now x l result }
{
    if limit < to {
        return x;
    }
    if x == 0 {
        return (l + 1) as u32;
    }
    let other = (x - 1) % KEY_WEIGHT;
    let best = length_to(work, wide(other));
    if best < to {
        return x;
    }
    if to < best {
        return (l + 1) as u32;
    }
    other + SEVERAL
}
