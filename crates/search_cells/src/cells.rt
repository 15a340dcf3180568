// How the search packs what it knows into its cells of the work area, and how their numbers are read.
ghost use Rattle.model.specs.Map.{greatest_line_count};
ghost use Rattle.model.specs.Work.{work_length};
ghost use Rattle.search_cells.specs.Area.{several, note_limit, listed, key_of, line_of, length_to, predecessor};
ghost use Rattle.std.specs.Prelude.{◌≡◌, ◌≤◌, ◌<◌, length};

use buffers::wide;
use model::limits::GREATEST_LEG_LENGTH;
use work_area::{END, LENGTHS, NEXT, START};

// A search goes along the mirrored map. There a line leads from its end to its start.
pub const MIRROR_START: usize = END;

pub const MIRROR_END: usize = START;

// A cell of `LENGTHS` has the length to a line times this, and 1 + its predecessor, or 0.
pub const NOTE_WEIGHT: u32 = 2_048;

// A cell of `NEXT` has the next line of an adjacency list and, times this, a place of the list of the lines that a search has reached: 1 + the line,
// or 0. A cell of `HEADS` has the first line of an adjacency list and, times this, the nearest free line that ends at the node.
pub const LIST_WEIGHT: u32 = 2_048;

// A cell of `NEXT` has, times this, a line that marks the line of the cell: the turn from it is banned. No line follows itself, so one that marks itself says
// nothing.
pub const MARK_WEIGHT: u32 = 4_194_304;

// A cell of `QUEUE` has the length to a line times this, and the line, from the last one down.
pub const KEY_WEIGHT: u32 = 1_024;

// The length to a line that is not reached: one past the greatest limit.
pub const FAR: u32 = GREATEST_LEG_LENGTH + 1;

// In the cell of a line: it has several predecessors. Added to the line in the cell of a node: another line is as near.
pub const SEVERAL: u32 = 1_025;

// 1 + the line at place `i` of the list of reached lines, or 0 past its end.
pub fn line_at(work: &[u32], i: usize) -> usize
    requires { (i < greatest_line_count) × (work_length ≤ length work.now) }
    ensures { result ≡ listed work.now i }
{
    wide(work[NEXT + i] / LIST_WEIGHT % LIST_WEIGHT)
}

// The length found to line `l`.
pub fn length_to(work: &[u32], l: usize) -> u32
    requires { (l < several) × (work_length ≤ length work.now) }
    ensures { result ≡ length_to work.now l }
{
    work[LENGTHS + l] / NOTE_WEIGHT
}

// The key of line `l` in the queue, with the length `to` to it.
pub fn key_of(to: u32, l: usize) -> u32
    requires { (to < note_limit) × (l < greatest_line_count) }
    ensures { result ≡ key_of to l }
{
    to * KEY_WEIGHT + (KEY_WEIGHT - 1 - l as u32)
}

// The line of a key.
pub fn line_of(key: u32) -> usize
    ensures { result ≡ line_of key }
{
    wide(KEY_WEIGHT - 1 - key % KEY_WEIGHT)
}

// 1 + the predecessor of line `l`, `SEVERAL`, or 0.
pub fn predecessor_at(work: &[u32], l: usize) -> u32
    requires { (l < greatest_line_count) × (work_length ≤ length work.now) }
    ensures { result ≡ predecessor work.now l }
{
    work[LENGTHS + l] % NOTE_WEIGHT
}
