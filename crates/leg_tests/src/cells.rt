// The test of one leg by one terminus: the leg's number in the table, and what the work area is searched for by then.
ghost use Rattle.std.specs.Prelude.{◌≡◌, true};
ghost use Rattle.model.specs.Map.{Map};
ghost use Rattle.buffers.specs.Decides.{Decides};
ghost use Rattle.search_cells.specs.Area.{Set};
ghost use Rattle.sole_ways.specs.SoleWays.{SoleLeg};
ghost use Rattle.leg_tests.specs.LegTests.{Alone, Own, EndsThere, DoneFor, OnLeg, CellSearched, CellTested};

use crate::leg::leg_fits;
use crate::leg_search::{Done, prepare, test_leg};
use stretches::lines::LineList;
use way_lengths::Terminus;

// A leg's number in the table, and the last search from the terminus, if there is one. The number stays a byte, since no heap is used and the table is lent.
#[derive(Clone, Copy)]
pub struct Cell {
    pub mark: u8,
    pub last: Option<Done>,
}

// The number of a leg that is no longer than a leg can be, by the readings to a terminus: after a search back from there, if the last one does not serve it.
fn search_cell(
    work: &mut [u32],
    stretch: LineList,
    i: usize,
    j: usize,
    to: Terminus,
    own: bool,
    alone: bool,
    before: Cell,
) -> Cell
    requires { (m : Map) × Set m stretch.lines work.old × OnLeg m stretch.lines stretch.numbers.now i j × SoleLeg m stretch.numbers.now i j
        × Decides (Alone m stretch.lines stretch.numbers.now i) alone × EndsThere m stretch.lines stretch.numbers.now j to own
        × DoneFor m stretch.lines to before.last work.old }
    ensures { (m : Map) → Set m stretch.entry.lines work.old → OnLeg m stretch.entry.lines stretch.entry.numbers.now i j → SoleLeg m stretch.entry.numbers.now i j
        → Decides (Alone m stretch.entry.lines stretch.entry.numbers.now i) alone → EndsThere m stretch.entry.lines stretch.entry.numbers.now j to own
        → DoneFor m stretch.entry.lines to before.last work.old
        → CellSearched m stretch.entry.lines stretch.entry.numbers.now i j to work.old work.new result }
{
    let leg = stretch.part(i, j);
    let class = leg.lowest_class(work);
    let len = leg.total_length(work) as u32;
    let limit = prepare(work, stretch, i, to, class, len, before.last);
    let last = Some(Done { class, limit });
    if test_leg(work, stretch, i, j, class, len, alone, own, limit) {
        return Cell { mark: 1, last };
    }
    Cell { mark: 0, last }
}

// The number of a leg that is a sole way after the test of its own terminus. Where its first line is alone it is the only reading there.
fn own_cell(
    work: &mut [u32],
    stretch: LineList,
    i: usize,
    j: usize,
    to: Terminus,
    alone: bool,
    before: Cell,
) -> Cell
    requires { (m : Map) × Set m stretch.lines work.old × OnLeg m stretch.lines stretch.numbers.now i j × SoleLeg m stretch.numbers.now i j
        × Decides (Alone m stretch.lines stretch.numbers.now i) alone × Own m stretch.lines stretch.numbers.now j to
        × DoneFor m stretch.lines to before.last work.old }
    ensures { before.mark ≡ 1 → (m : Map) → Set m stretch.entry.lines work.old → OnLeg m stretch.entry.lines stretch.entry.numbers.now i j
        → SoleLeg m stretch.entry.numbers.now i j → Decides (Alone m stretch.entry.lines stretch.entry.numbers.now i) alone → Own m stretch.entry.lines stretch.entry.numbers.now j to
        → DoneFor m stretch.entry.lines to before.last work.old
        → CellTested m stretch.entry.lines stretch.entry.numbers.now i j to true before.mark work.old work.new result }
{
    if !leg_fits(work, stretch, i, j) {
        return Cell {
            mark: 0,
            last: before.last,
        };
    }
    if alone {
        return before;
    }
    search_cell(work, stretch, i, j, to, true, alone, before)
}

// The number of the leg from position `i` to position `j` after the test of a terminus. Where it is not 1 there is nothing to test.
pub fn test_cell(
    work: &mut [u32],
    stretch: LineList,
    i: usize,
    j: usize,
    to: Terminus,
    own: bool,
    alone: bool,
    before: Cell,
) -> Cell
    requires { (m : Map) × Set m stretch.lines work.old × OnLeg m stretch.lines stretch.numbers.now i j × (before.mark ≡ 1 → SoleLeg m stretch.numbers.now i j)
        × Decides (Alone m stretch.lines stretch.numbers.now i) alone × EndsThere m stretch.lines stretch.numbers.now j to own
        × DoneFor m stretch.lines to before.last work.old }
    ensures { (m : Map) → Set m stretch.entry.lines work.old → OnLeg m stretch.entry.lines stretch.entry.numbers.now i j
        → (before.mark ≡ 1 → SoleLeg m stretch.entry.numbers.now i j)
        → Decides (Alone m stretch.entry.lines stretch.entry.numbers.now i) alone → EndsThere m stretch.entry.lines stretch.entry.numbers.now j to own
        → DoneFor m stretch.entry.lines to before.last work.old
        → CellTested m stretch.entry.lines stretch.entry.numbers.now i j to own before.mark work.old work.new result }
{
    let mark = before.mark;
    if mark != 1 {
        return before;
    }
    if own {
        return own_cell(work, stretch, i, j, to, alone, before);
    }
    search_cell(work, stretch, i, j, to, own, alone, before)
}
