// The legs from one position, a row of the table.
ghost use Rattle.std.specs.Prelude.{◌≡◌, ◌+◌, ◌*◌, ◌-◌, ◌≤◌, ◌<◌, length};
ghost use Rattle.model.specs.Map.{Map};
ghost use Rattle.model.specs.Lines.{Connected};
ghost use Rattle.work_area.specs.Mirror.{mirror};
ghost use Rattle.search_cells.specs.Area.{Set};
ghost use Rattle.buffers.specs.Decides.{Decides};
ghost use Rattle.buffers.specs.Kept.{Kept};
ghost use Rattle.sole_ways.specs.SoleWays.{mark, Arriving, WalledIf, RowBefore, RowCleared, RowTested};

use crate::part::{none_from, one_more};
use crate::test::test_sole;
use crate::wall::{Wall, bars, find_wall};
use model::limits::GREATEST_LEG_LENGTH;
use stretches::lines::LineList;

// The greatest count of a stretch's positions: one more than of its lines.
pub const POSITIONS: usize = 65;

// Gives 0 to the legs from position `i`, up to position `end`.
fn clear_row(table: &mut [u8], i: usize, end: usize)
    requires { (i < end) × (end ≤ 64) × (65 * end ≤ length table.old) }
    ensures { RowCleared i end table.old table.new }
{
    let row = POSITIONS * i;
    table[row + i + 1..row + end + 1].fill(0);
}

// Whether the leg to position `j` from the position before `i` is a sole way. Then that from `i` is one too.
fn is_known(table: &[u8], i: usize, j: usize) -> bool
    requires { (i < j) × (j ≤ 64) × (65 * j ≤ length table.now) }
    ensures { Decides ((0 < i) × (mark table.now (i - 1) j ≡ 1)) result }
{
    if i == 0 {
        return false;
    }
    table[POSITIONS * (i - 1) + j] == 1
}

// What a row leaves to the next: the length that it went up to, which that one is likely to go up to as well, and a wall.
#[derive(Clone, Copy)]
pub struct Row {
    pub reach: u32,
    pub wall: Option<Wall>,
}

// Tests the legs from position `i` up to position `end`, after the row `before`.
pub fn test_row(
    work: &mut [u32],
    stretch: LineList,
    i: usize,
    end: usize,
    arrivals: &[u32],
    before: Row,
    table: &mut [u8],
) -> Row
    requires i_lt_end { (i < end) × (end ≤ length stretch.numbers.now) × (length stretch.numbers.now ≤ 64) × (65 * length stretch.numbers.now ≤ length table.old) }
    requires set { (m : Map) × Set m stretch.lines work.old × Connected (mirror m) stretch.numbers.now × Arriving m stretch.lines stretch.numbers.now arrivals.now
        × RowBefore (mirror m) stretch.numbers.now i table.old }
    ensures { (m : Map) → Set m stretch.entry.lines work.old → Connected (mirror m) stretch.entry.numbers.now
        → Arriving m stretch.entry.lines stretch.entry.numbers.now arrivals.now → RowBefore (mirror m) stretch.entry.numbers.now i table.old
        → WalledIf (mirror m) stretch.entry.numbers.now before.wall → WalledIf (mirror m) stretch.entry.numbers.now result.wall
        × RowTested m stretch.entry.lines stretch.entry.numbers.now i end table.old table.new work.old work.new }
{
    let reach = before.reach;
    let wall = before.wall;
    clear_row(table, i, end);
    let mut last = None;
    let mut part = none_from(i);
    // The part moves its own end on: a counter beside it would be no plainer.
    while part.to < end {
        part = one_more(work, stretch, part);
        // A longer leg is too long as well.
        if GREATEST_LEG_LENGTH < part.length {
            break;
        }
        // Another way is as short, and so it is for longer legs.
        if bars(wall, part) {
            return before;
        }
        let j = part.to;
        if is_known(table, i, j) {
            table[POSITIONS * i + j] = 1;
        } else {
            let test = test_sole(work, stretch, part, end, arrivals, reach, last);
            let along = test.along;
            last = Some(along);
            if test.sole {
                table[POSITIONS * i + j] = 1;
            } else if along.to < j {
                // Another way is as short up to a line of the leg, and so it is for longer legs.
                let found = find_wall(work, stretch, i, along, wall);
                return Row {
                    reach: part.length,
                    wall: found,
                };
            }
        }
    }
    Row {
        reach: part.length,
        wall,
    }
}
