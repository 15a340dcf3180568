// The search for ways of least length, over a map that stands in the work area.
// It goes back from where the ways end, along the mirrored map, on which every line leads from its end to its start. What is said of lines that leave a
// node, of predecessors and of lengths to a line, here and down to `search_cells`, is said of that map. The crate `ways` reads it as ways of the map itself.
// `search_cells::adjacency::link` is called once a map, then `search` for each terminus, class and limit.
#![tactic(auto)]

ghost use Rattle.std.specs.Prelude.{◌≤◌};
ghost use Rattle.model.specs.Map.{Map};
ghost use Rattle.model.specs.Reading.{greatest_leg_length};
ghost use Rattle.search_cells.specs.Area.{Mirrored, Chained};
ghost use Rattle.search.specs.Seeds.{Begun};
ghost use Rattle.way_lengths.specs.Ways.{Stands};
ghost use Rattle.search.specs.Promises.{Finished};

use expansion::expand;
use search_cells::list::{ReachedLines, reset};
use seeds::{seed, seed_node};
use way_lengths::Terminus;

mod seeds;

// Resets the last search and reaches the lines that ways may begin with: the list and the queue now.
fn begin(work: &mut [u32], lines: usize, from: Terminus, class: u32, limit: u32) -> ReachedLines
    requires { (m : Map) × Mirrored work.old lines m × Chained work.old lines m × Stands m lines from × (limit ≤ greatest_leg_length) }
    ensures { (m : Map) → Mirrored work.old lines m → Chained work.old lines m → Stands m lines from
        → Begun m lines class from limit work.old work.new result.count result.end }
{
    reset(work, lines);
    match from {
        Terminus::Line(l) => seed(
            work,
            lines,
            l,
            ReachedLines { count: 0, end: 0 },
            class,
            limit,
        ),
        Terminus::Node(v) => seed_node(work, lines, v, class, limit),
    }
}

// The least length to each line that ways from there over lines of FRC at most `class` reach within the limit, and its predecessor.
// The search goes on from lines in the order of their lengths, so a length is least as soon as it is found.
pub fn search(work: &mut [u32], lines: usize, from: Terminus, class: u32, limit: u32)
    requires { (m : Map) × Mirrored work.old lines m × Chained work.old lines m × Stands m lines from × (limit ≤ greatest_leg_length) }
    ensures { (m : Map) → Mirrored work.old lines m → Chained work.old lines m → Stands m lines from
        → Finished m lines class from limit work.old work.new }
{
    let mut list = begin(work, lines, from, class, limit);
    let mut place: usize = 0;
    // The end moves on as the search does, so there is no range to go over.
    while place < list.end {
        list = expand(work, lines, place, list, class, limit);
        place += 1;
    }
}
