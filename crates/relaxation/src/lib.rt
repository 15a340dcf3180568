// How a search takes a line into account at one line that can follow it: that is reached, or a tie is recorded there.
#![tactic(auto)]

ghost use Rattle.std.specs.Prelude.{◌≡◌, ℕ, ◌≤◌, ◌<◌, length};
ghost use Rattle.model.specs.Lines.{line_at};
ghost use Rattle.model.specs.Map.{greatest_line_count, Map};
ghost use Rattle.model.specs.Reading.{greatest_leg_length};
ghost use Rattle.model.specs.Work.{work_length};
ghost use Rattle.search_cells.specs.Area.{Mirrored, several, key_of, queued, marked};
ghost use Rattle.buffers.specs.Decides.{Decides};
ghost use Rattle.relaxation.specs.Underway.{Task, Underway};
ghost use Rattle.relaxation.specs.Relaxed.{Noted, TieNoted, Goes, Arrived, Relaxed};

use search_cells::cells::{FAR, MARK_WEIGHT, NOTE_WEIGHT, SEVERAL, key_of, length_to};
use search_cells::list::{ReachedLines, insert, put, sends};
use work_area::{FRC, LENGTH, LENGTHS, NEXT, field};

// A line that the search goes on from: the length to it, its banned turns, and what is noted at the lines that follow it. Where that is 0 the line has
// nothing to do.
#[derive(Clone, Copy)]
pub struct Going {
    pub line: usize,
    pub length: u32,
    pub chain: usize,
    pub note: u32,
}

// `x` with `note` noted too.
fn noted(x: u32, note: u32) -> u32
    ensures { Noted x note result }
{
    if x == 0 || x == note { note } else { SEVERAL }
}

// Records `note` for a predecessor of line `j`.
fn record_tie(work: &mut [u32], j: usize, note: u32)
    requires { (j < greatest_line_count) × (note ≤ several) × (work_length ≤ length work.old) }
    ensures { TieNoted note j work.old work.new }
{
    let x = work[LENGTHS + j];
    let now = noted(x % NOTE_WEIGHT, note);
    work[LENGTHS + j] = x / NOTE_WEIGHT * NOTE_WEIGHT + now;
}

// Line `j` is reached: the list and the queue now. The queue has a line that is not farther.
fn reach(
    work: &mut [u32],
    lines: usize,
    j: usize,
    note: u32,
    to: u32,
    list: ReachedLines,
    limit: u32,
) -> ReachedLines
    requires j_lt_lines { (j < lines) × (note ≤ several) × (to ≤ greatest_leg_length) × (list.count < lines) × (list.end ≤ list.count) }
    requires by_index { ((m : Map) × Mirrored work.old lines m) × ((place : ℕ) × (place < list.end) × (queued work.old place ≤ key_of to j)) }
    ensures { (m : Map) → Mirrored work.old lines m → (place : ℕ) → place < list.end → queued work.old place ≤ key_of to j
        → Arrived m limit place j note to list.count list.end work.old work.new result.count result.end }
{
    put(work, j, note, to, list.count);
    let count = list.count + 1;
    if !sends(work, lines, j, to, limit) {
        return ReachedLines {
            count,
            end: list.end,
        };
    }
    insert(work, list.end, key_of(to, j));
    ReachedLines {
        count,
        end: list.end + 1,
    }
}

// Whether line `j` is marked by line `l`. Then it cannot follow it, whether or not `l` has banned turns: a mark is a line from which the turn is banned, or
// line `j` itself.
fn is_barred(work: &[u32], l: usize, j: usize) -> bool
    requires { (j < greatest_line_count) × (l < greatest_line_count) × (work_length ≤ length work.now) }
    ensures { Decides (marked work.now j ≡ l) result }
{
    work[NEXT + j] / MARK_WEIGHT == l as u32
}

// Takes a line that the search goes on from into account at line `j`, which starts where it ends: the list and the queue now.
pub fn relax(
    work: &mut [u32],
    lines: usize,
    going: Going,
    j: usize,
    list: ReachedLines,
    class: u32,
    limit: u32,
) -> ReachedLines
    requires j_lt_lines { j < lines }
    requires by_index { (q : Task) × (place : ℕ) × Underway q lines class limit place list.count list.end work.old
        × Goes q.map lines place list.end work.old going × ((line_at q.map j).start ≡ (line_at q.map going.line).end) }
    ensures { (q : Task) → (place : ℕ) → Underway q lines class limit place list.count list.end work.old
        → Goes q.map lines place list.end work.old going → (line_at q.map j).start ≡ (line_at q.map going.line).end
        → Relaxed q lines class limit place going j work.old work.new result.count result.end }
{
    let length = going.length + field(work, j, LENGTH);
    let found = length_to(work, j);
    if found < length {
        return list;
    }
    if is_barred(work, going.line, j) {
        return list;
    }
    // A length that is found is not more than this one: so they are equal.
    if found < FAR {
        record_tie(work, j, going.note);
        return list;
    }
    if class < field(work, j, FRC) {
        return list;
    }
    if limit < length {
        return list;
    }
    reach(work, lines, j, going.note, length, list, limit)
}
