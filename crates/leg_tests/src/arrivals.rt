// Lists of the lines that arrive at the nodes of a stretch. They are made before the map is turned round, since they are its adjacency lists until then.
ghost use Rattle.std.specs.Prelude.{◌≡◌, ◌≤◌, length};
ghost use Rattle.model.specs.Map.{Map};
ghost use Rattle.model.specs.Lines.{Connected};
ghost use Rattle.search_cells.specs.Area.{Set};
ghost use Rattle.leg_tests.specs.Arrivals.{arrivals_length, Firsts, Nexts};

use search_cells::adjacency::{first_leaving, next_leaving};
use sole_ways::along::ARRIVALS;
use stretches::lines::LineList;
use work_area::END;

// For each position 1 + the first line that arrives at the node there, or 0.
pub fn list_firsts(work: &[u32], stretch: LineList, arrivals: &mut [u32])
    requires bounds { (length stretch.numbers.now ≤ 64) × (length arrivals.old ≡ arrivals_length) }
    requires set { (m : Map) × Set m stretch.lines work.now }
    ensures { (m : Map) → Set m stretch.entry.lines work.now
        → Firsts m stretch.entry.lines stretch.entry.numbers.now (length stretch.entry.numbers.now) arrivals.old arrivals.new }
{
    for j in 0..stretch.numbers.len() {
        let v = stretch.node_of(work, j, END);
        arrivals[j + 1] = first_leaving(work, stretch.lines, v) as u32;
    }
}

// From each line 1 + the next that arrives where it does, or 0.
pub fn list_nexts(work: &[u32], lines: usize, arrivals: &mut [u32])
    requires arrivals_len { length arrivals.old ≡ arrivals_length }
    requires set { (m : Map) × Set m lines work.now }
    ensures { (m : Map) → Set m lines work.now → Nexts m lines lines arrivals.old arrivals.new }
{
    for l in 0..lines {
        arrivals[ARRIVALS + l] = next_leaving(work, lines, l + 1) as u32;
    }
}
