// The tests of a stretch's legs. A leg may be used if its differences fit and it is its own only reading. First the rows: which legs are sole ways, by searches from their
// first lines on the map turned round. Then the columns: for what is left, by searches back from where legs end, one for many first lines.
#![tactic(auto)]

ghost use Rattle.std.specs.Prelude.{◌≡◌, ◌⊎◌, ◌*◌, ◌≤◌, ◌<◌, length};
ghost use Rattle.model.specs.Map.{Map};
ghost use Rattle.model.specs.Lines.{Connected};
ghost use Rattle.model.specs.LegTests.{tests_made};
ghost use Rattle.work_area.specs.Area.{Held};
ghost use Rattle.buffers.specs.Kept.{Kept};
ghost use Rattle.search_cells.specs.Area.{Set};
ghost use Rattle.sole_ways.specs.SoleWays.{Blank};
ghost use Rattle.leg_tests.specs.LegTests.{Noted, NotesKept, FirstMarked, SoleTested, SoleColumn, SoleLegs, ColumnTested, LegsSifted, AllTested};
ghost use Rattle.leg_tests.specs.Leaving.{Leaving};

use alone::alone_mark;
use arrivals::{list_firsts, list_nexts};
use buffers::wide;
use columns::{test_candidate, test_column};
use leaving::list_leaving;
use search_cells::adjacency::{first_leaving, next_leaving};
use sole_ways::row::POSITIONS;
use sole_ways::test_rows;
use stretches::lines::LineList;
use turning::turn_round;
use way_lengths::Terminus;
use work_area::{END, SECTOR_BACK};

mod alone;
mod arrivals;
mod cells;
mod columns;
mod leaving;
mod leg;
mod leg_search;

// A number for each position of a stretch of up to 64 lines, and one for each line of a map.
const ARRIVALS_LENGTH: usize = 1_089;

// Notes at number 65 * i of the table, which is no leg's, whether the line at position `i` is alone.
fn note_alone(work: &[u32], stretch: LineList, table: &mut [u8])
    requires bounds { (length stretch.numbers.now ≤ 64) × (65 * length stretch.numbers.now ≤ length table.old) }
    requires held { (m : Map) × Held work.now stretch.lines m × Leaving m stretch.lines work.now }
    ensures notes_kept { NotesKept (length stretch.entry.numbers.now) table.old table.new }
    ensures noted { (m : Map) → Held work.now stretch.entry.lines m → Leaving m stretch.entry.lines work.now
        → Noted m stretch.entry.lines stretch.entry.numbers.now table.new }
{
    for i in 0..stretch.numbers.len() {
        table[POSITIONS * i] = alone_mark(work, stretch, i);
    }
}

// Tests all legs to the last position: by their own last line, and by each other line that ends at the node there.
fn test_last_column(work: &mut [u32], stretch: LineList, table: &mut [u8])
    requires stretch_nonzero { (0 < length stretch.numbers.now) × (length stretch.numbers.now ≤ 64) × (65 * length stretch.numbers.now ≤ length table.old) }
    requires set { (m : Map) × Set m stretch.lines work.old × Connected m stretch.numbers.now × Noted m stretch.lines stretch.numbers.now table.old
        × SoleColumn m stretch.numbers.now (length stretch.numbers.now) table.old }
    ensures { (m : Map) → Set m stretch.entry.lines work.old → Connected m stretch.entry.numbers.now
        → Noted m stretch.entry.lines stretch.entry.numbers.now table.old → SoleColumn m stretch.entry.numbers.now (length stretch.entry.numbers.now) table.old
        → ColumnTested m stretch.entry.lines stretch.entry.numbers.now (length stretch.entry.numbers.now) table.old table.new work.old
        work.new }
{
    let j = stretch.numbers.len();
    let own = Terminus::Line(wide(stretch.numbers[j - 1]));
    test_column(work, stretch, j, own, true, table);
    let arrives = stretch.attributes_of(work, j - 1, SECTOR_BACK);
    let v = stretch.node_of(work, j - 1, END);
    let mut at = first_leaving(work, stretch.lines, v);
    while 0 < at {
        test_candidate(work, stretch, at - 1, arrives, table);
        at = next_leaving(work, stretch.lines, at);
    }
}

// Tests all legs to position `j`.
fn test_to(work: &mut [u32], stretch: LineList, j: usize, table: &mut [u8])
    requires j_nonzero { (0 < j) × (j ≤ length stretch.numbers.now) × (length stretch.numbers.now ≤ 64) × (65 * length stretch.numbers.now ≤ length table.old) }
    requires set { (m : Map) × Set m stretch.lines work.old × Connected m stretch.numbers.now × Noted m stretch.lines stretch.numbers.now table.old
        × SoleColumn m stretch.numbers.now j table.old }
    ensures { (m : Map) → Set m stretch.entry.lines work.old → Connected m stretch.entry.numbers.now
        → Noted m stretch.entry.lines stretch.entry.numbers.now table.old → SoleColumn m stretch.entry.numbers.now j table.old
        → ColumnTested m stretch.entry.lines stretch.entry.numbers.now j table.old table.new work.old work.new }
{
    if j == stretch.numbers.len() {
        test_last_column(work, stretch, table);
        return;
    }
    let own = Terminus::Node(stretch.node_of(work, j - 1, END));
    test_column(work, stretch, j, own, true, table);
}

// Tests the legs that are sole ways: a number of the table stays 1 where the leg may be used.
fn sift_legs(work: &mut [u32], stretch: LineList, table: &mut [u8])
    requires stretch_len_bound { (length stretch.numbers.now ≤ 64) × (65 * length stretch.numbers.now ≤ length table.old) }
    requires set { (m : Map) × Set m stretch.lines work.old × Connected m stretch.numbers.now × SoleLegs m stretch.numbers.now table.old }
    ensures { (m : Map) → Set m stretch.entry.lines work.old → Connected m stretch.entry.numbers.now → SoleLegs m stretch.entry.numbers.now table.old
        → LegsSifted m stretch.entry.lines stretch.entry.numbers.now table.old table.new work.old work.new }
{
    list_leaving(work, stretch.lines);
    note_alone(work, stretch, table);
    for j in 1..stretch.numbers.len() + 1 {
        test_to(work, stretch, j, table);
    }
}

// Where the first leg is the only one to test: gives it 1 if a test may be made. A leg of one line is a sole way, since a way that goes on from its line is longer.
fn mark_first(stretch: &[u32], tests: usize, table: &mut [u8]) -> usize
    requires stretch_nonzero { (0 < length stretch.now) × (65 * length stretch.now ≤ length table.old) × Blank table.old }
    requires fact { (length stretch.now ≤ 1) ⊎ (tests ≤ 1) }
    ensures { (result ≡ tests_made (length stretch.now) tests)
        × FirstMarked (length stretch.now) result table.old table.new }
{
    if tests == 0 {
        return 0;
    }
    table[1] = 1;
    1
}

// Tests whether legs are sole ways, row by row on the map turned round: the tests made.
fn test_turned(work: &mut [u32], stretch: LineList, tests: usize, table: &mut [u8]) -> usize
    requires stretch_len_bound { (length stretch.numbers.now ≤ 64) × (65 * length stretch.numbers.now ≤ length table.old) × Blank table.old }
    requires set { (m : Map) × Set m stretch.lines work.old × Connected m stretch.numbers.now }
    ensures value { result ≡ tests_made (length stretch.entry.numbers.now) tests }
    ensures sole_tested { (m : Map) → Set m stretch.entry.lines work.old → Connected m stretch.entry.numbers.now
        → SoleTested m stretch.entry.lines stretch.entry.numbers.now result table.old table.new work.old work.new }
{
    let mut arrivals: [u32; ARRIVALS_LENGTH] = [0; ARRIVALS_LENGTH];
    list_firsts(work, stretch, &mut arrivals);
    list_nexts(work, stretch.lines, &mut arrivals);
    turn_round(work, stretch.lines);
    let tested = test_rows(work, stretch, tests, &arrivals, table);
    turn_round(work, stretch.lines);
    tested
}

// The same, without a search where the first leg is the only one to test.
fn test_sole_ways(work: &mut [u32], stretch: LineList, tests: usize, table: &mut [u8]) -> usize
    requires stretch_len_bound { (length stretch.numbers.now ≤ 64) × (65 * length stretch.numbers.now ≤ length table.old) × Blank table.old }
    requires set { (m : Map) × Set m stretch.lines work.old × Connected m stretch.numbers.now }
    ensures value { result ≡ tests_made (length stretch.entry.numbers.now) tests }
    ensures sole_tested { (m : Map) → Set m stretch.entry.lines work.old → Connected m stretch.entry.numbers.now
        → SoleTested m stretch.entry.lines stretch.entry.numbers.now result table.old table.new work.old work.new }
{
    if stretch.numbers.len() <= 1 {
        return mark_first(stretch.numbers, tests, table);
    }
    if tests <= 1 {
        return mark_first(stretch.numbers, tests, table);
    }
    test_turned(work, stretch, tests, table)
}

// Tests as many legs of a stretch as it may, or all, in order of their start, then their end: the tests made. Number 65 * i + j of the table becomes 1 where the
// leg from position `i` to position `j` is tested good.
pub fn test_legs(work: &mut [u32], stretch: LineList, tests: usize, table: &mut [u8]) -> usize
    requires stretch_len_bound { (length stretch.numbers.now ≤ 64) × (65 * length stretch.numbers.now ≤ length table.old) × Blank table.old }
    requires set { (m : Map) × Set m stretch.lines work.old × Connected m stretch.numbers.now }
    ensures value { result ≡ tests_made (length stretch.entry.numbers.now) tests }
    ensures all_tested { (m : Map) → Set m stretch.entry.lines work.old → Connected m stretch.entry.numbers.now
        → AllTested m stretch.entry.lines stretch.entry.numbers.now result table.old table.new work.old work.new }
{
    let made = test_sole_ways(work, stretch, tests, table);
    sift_legs(work, stretch, table);
    made
}
