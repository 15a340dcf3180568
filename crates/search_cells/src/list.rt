// The list of the lines that a search has reached, in the order in which it reached them, and the queue of those that it goes on from, the nearest first.
ghost use Rattle.model.specs.Map.{greatest_line_count, Map};
ghost use Rattle.model.specs.Reading.{greatest_leg_length};
ghost use Rattle.model.specs.Work.{work_length};
ghost use Rattle.search_cells.specs.Area.{Mirrored, several, list_weight, mark_weight, Chained, length_to, queued};
ghost use Rattle.std.specs.Prelude.{◌≡◌, ℕ, ◌+◌, ◌*◌, ◌/◌, ◌%◌, ◌≤◌, ◌<◌, length};
ghost use Rattle.search_cells.specs.Promises.{Reset, Put, Sent, Inserted};

use crate::cells::{FAR, LIST_WEIGHT, MARK_WEIGHT, MIRROR_END, NOTE_WEIGHT, line_at};
use crate::nearest::nearer;
use banned_turns::bans_from;
use buffers::wide;
use work_area::{HEADS, LENGTHS, NEXT, QUEUE, field};

// How many lines are on the list, and how many are in the queue, those too that the search has gone on from.
#[derive(Clone, Copy)]
pub struct ReachedLines {
    pub count: usize,
    pub end: usize,
}

// A cell of `NEXT` with no line on the list at its place.
fn unlisted(cell: u32) -> u32
    ensures { result ≡ cell / mark_weight * mark_weight + cell % list_weight }
{
    cell / MARK_WEIGHT * MARK_WEIGHT + cell % LIST_WEIGHT
}

// Resets what the last search found: no line is reached, the list is empty, and no node has a nearest free line.
pub fn reset(work: &mut [u32], lines: usize)
    requires { (m : Map) × Mirrored work.old lines m × Chained work.old lines m }
    ensures { (m : Map) → Mirrored work.old lines m → Chained work.old lines m
        → Reset m lines work.old work.new }
{
    for i in 0..lines {
        let x = line_at(work, i);
        if x == 0 {
            return;
        }
        let v = wide(field(work, x - 1, MIRROR_END));
        work[HEADS + v] %= LIST_WEIGHT;
        work[LENGTHS + (x - 1)] = FAR * NOTE_WEIGHT;
        work[NEXT + i] = unlisted(work[NEXT + i]);
    }
}

// Line `j` is reached: the length to it is `to`, with `note` for its predecessor, and it is put on the list of `count` lines.
pub fn put(work: &mut [u32], j: usize, note: u32, to: u32, count: usize)
    requires { (j < greatest_line_count) × (note ≤ several) × (to ≤ greatest_leg_length) × (work_length ≤ length work.old) × (count < greatest_line_count) }
    ensures { Put j note to count work.old work.new }
{
    work[LENGTHS + j] = to * NOTE_WEIGHT + note;
    work[NEXT + count] = unlisted(work[NEXT + count]) + LIST_WEIGHT * (j + 1) as u32;
}

// Whether the search is to go on from line `j`, which is just reached, with the length `to`. From a line with banned turns always. Of the free lines that end at a node only
// the nearest goes on, and that they are several is kept in the node's cell: so the others have nothing to do.
pub fn sends(work: &mut [u32], lines: usize, j: usize, to: u32, limit: u32) -> bool
    requires { (j < lines) × (to ≡ length_to work.old j) × ((m : Map) × Mirrored work.old lines m) }
    ensures { (m : Map) → Mirrored work.old lines m → Sent m limit j work.old work.new result }
{
    if bans_from(work, lines, j) != 0 {
        return true;
    }
    let v = wide(field(work, j, MIRROR_END));
    let cell = work[HEADS + v];
    let x = nearer(work, cell / LIST_WEIGHT, j, to, limit);
    work[HEADS + v] = cell % LIST_WEIGHT + LIST_WEIGHT * x;
    x == (j + 1) as u32
}

// Puts a line into the queue that ends at `end`, by its length: before those that are farther. One that is not farther stands in it.
pub fn insert(work: &mut [u32], end: usize, key: u32)
    requires { (end < greatest_line_count) × (work_length ≤ length work.old) × ((place : ℕ) × (place < end) × (queued work.old place ≤ key)) }
    ensures { (place : ℕ) → place < end → queued work.old place ≤ key
        → Inserted place end key work.old work.new }
{
    let mut i = end;
    // A key before the end is not greater: so this test ends the loop, and a range would add its own to each turn.
    while key < work[QUEUE + i - 1] {
        work[QUEUE + i] = work[QUEUE + i - 1];
        i -= 1;
    }
    work[QUEUE + i] = key;
}
