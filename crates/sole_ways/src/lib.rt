// Which legs of a stretch are sole ways: no other way from their first line to where they end is as short. They are tested in order of their start, then
// their end, row by row, by searches from the first line of a row. A search serves many legs of its row, and a leg that is a sole way tells so of those that start later and
// end where it does.
#![tactic(auto)]

ghost use Rattle.std.specs.Prelude.{◌≡◌, ◌+◌, ◌*◌, ◌≤◌, ◌<◌, min, length};
ghost use Rattle.model.specs.Map.{Map};
ghost use Rattle.model.specs.Lines.{Connected};
ghost use Rattle.model.specs.LegTests.{tests_made};
ghost use Rattle.work_area.specs.Mirror.{mirror};
ghost use Rattle.search_cells.specs.Area.{Set};
ghost use Rattle.sole_ways.specs.SoleWays.{Blank, Arriving, RowsTested};

use model::limits::GREATEST_LEG_LENGTH;
use row::{Row, test_row};
use stretches::lines::LineList;

pub mod ahead;
pub mod along;
mod part;
pub mod row;
mod test;
mod wall;

// How long the legs of the first row are guessed to get: 1 km, a fifteenth of the longest leg.
const FIRST_REACH: u32 = GREATEST_LEG_LENGTH / 15;

// Tests as many legs as it may, or all: the tests made. Number 65 * i + j of the table becomes 1 where the leg from position `i` to position `j` is tested and is a
// sole way that is no longer than a leg can be.
pub fn test_rows(
    work: &mut [u32],
    stretch: LineList,
    tests: usize,
    arrivals: &[u32],
    table: &mut [u8],
) -> usize
    requires stretch_len_bound { (length stretch.numbers.now ≤ 64) × (65 * length stretch.numbers.now ≤ length table.old) × Blank table.old }
    requires set { (m : Map) × Set m stretch.lines work.old × Connected (mirror m) stretch.numbers.now × Arriving m stretch.lines stretch.numbers.now arrivals.now }
    ensures value { result ≡ tests_made (length stretch.entry.numbers.now) tests }
    ensures rows_tested { (m : Map) → Set m stretch.entry.lines work.old → Connected (mirror m) stretch.entry.numbers.now
        → Arriving m stretch.entry.lines stretch.entry.numbers.now arrivals.now
        → RowsTested m stretch.entry.lines stretch.entry.numbers.now result table.old table.new work.old work.new }
{
    let mut left = tests;
    let mut row = Row {
        reach: FIRST_REACH,
        wall: None,
    };
    for i in 0..stretch.numbers.len() {
        if left == 0 {
            return tests;
        }
        let end = i + left.min(stretch.numbers.len() - i);
        row = test_row(work, stretch, i, end, arrivals, row, table);
        left -= end - i;
    }
    tests - left
}
