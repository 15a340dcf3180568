// The legs to one position, a column of the table: tested by their own terminus, and those to the last position by other last lines too.
ghost use Rattle.std.specs.Prelude.{◌≡◌, false, ◌*◌, ◌-◌, ◌≤◌, ◌<◌, length, get_or};
ghost use Rattle.model.specs.Map.{Map};
ghost use Rattle.model.specs.Lines.{line_at, Connected, arriving};
ghost use Rattle.fields.specs.Leg.{attributes_in};
ghost use Rattle.way_lengths.specs.Ways.{line};
ghost use Rattle.search_cells.specs.Area.{Set};
ghost use Rattle.leg_tests.specs.LegTests.{Noted, EndsThere, SoleColumn, Owned, ColumnSifted};

use crate::cells::{Cell, test_cell};
use buffers::wide;
use fields::leg::Attributes;
use legs::attributes::arrives_as;
use sole_ways::row::POSITIONS;
use stretches::lines::LineList;
use way_lengths::Terminus;

// Tests all legs to position `j` by a terminus, their own or another. From leg to leg the lowest class rises, so each class is searched once at most, if the
// limit is far enough.
pub fn test_column(
    work: &mut [u32],
    stretch: LineList,
    j: usize,
    to: Terminus,
    own: bool,
    table: &mut [u8],
)
    requires j_nonzero { (0 < j) × (j ≤ length stretch.numbers.now) × (length stretch.numbers.now ≤ 64) × (65 * length stretch.numbers.now ≤ length table.old) }
    requires set { (m : Map) × Set m stretch.lines work.old × Connected m stretch.numbers.now × EndsThere m stretch.lines stretch.numbers.now j to own
        × Noted m stretch.lines stretch.numbers.now table.old × SoleColumn m stretch.numbers.now j table.old }
    ensures { (m : Map) → Set m stretch.entry.lines work.old → Connected m stretch.entry.numbers.now → EndsThere m stretch.entry.lines stretch.entry.numbers.now j to own
        → Noted m stretch.entry.lines stretch.entry.numbers.now table.old → SoleColumn m stretch.entry.numbers.now j table.old
        → ColumnSifted m stretch.entry.lines stretch.entry.numbers.now j to own table.old table.new work.old work.new }
{
    let mut last = None;
    for i in (0..j).rev() {
        let alone = table[POSITIONS * i] == 1;
        let mark = table[POSITIONS * i + j];
        let cell = test_cell(work, stretch, i, j, to, own, alone, Cell { mark, last });
        table[POSITIONS * i + j] = cell.mark;
        last = cell.last;
    }
}

// Tests the legs to the last position by the readings that end with line `last`, which ends at the node there. The own last line is tested, and one of other
// attributes has no readings of these legs.
pub fn test_candidate(
    work: &mut [u32],
    stretch: LineList,
    last: usize,
    arrives: Attributes,
    table: &mut [u8],
)
    requires stretch_nonzero { (0 < length stretch.numbers.now) × (length stretch.numbers.now ≤ 64) × (65 * length stretch.numbers.now ≤ length table.old) × (last < stretch.lines) }
    requires set { (m : Map) × Set m stretch.lines work.old × Connected m stretch.numbers.now
        × ((line_at m last).end ≡ (line_at m (get_or stretch.numbers.now (length stretch.numbers.now - 1) 0)).end)
        × (attributes_in arrives ≡ arriving m (get_or stretch.numbers.now (length stretch.numbers.now - 1) 0))
        × Noted m stretch.lines stretch.numbers.now table.old × Owned m stretch.numbers.now table.old
        × SoleColumn m stretch.numbers.now (length stretch.numbers.now) table.old }
    ensures { (m : Map) → Set m stretch.entry.lines work.old → Connected m stretch.entry.numbers.now
        → (line_at m last).end ≡ (line_at m (get_or stretch.entry.numbers.now (length stretch.entry.numbers.now - 1) 0)).end
        → attributes_in arrives ≡ arriving m (get_or stretch.entry.numbers.now (length stretch.entry.numbers.now - 1) 0)
        → Noted m stretch.entry.lines stretch.entry.numbers.now table.old → Owned m stretch.entry.numbers.now table.old
        → SoleColumn m stretch.entry.numbers.now (length stretch.entry.numbers.now) table.old
        → ColumnSifted m stretch.entry.lines stretch.entry.numbers.now (length stretch.entry.numbers.now) (line last) false table.old table.new
        work.old work.new }
{
    let j = stretch.numbers.len();
    if last == wide(stretch.numbers[j - 1]) {
        return;
    }
    if !arrives_as(work, stretch.lines, last, arrives) {
        return;
    }
    test_column(work, stretch, j, Terminus::Line(last), false, table);
}
