// The map in the work area, turned round in place. Searches go along the mirrored map: after a turn they go along the map itself.
#![tactic(auto)]

ghost use Rattle.model.specs.Map.{Map};
ghost use Rattle.search_cells.specs.Area.{Set};
ghost use Rattle.turning.specs.Turned.{Turned};

use crate::bans::turn_bans;
use crate::ends::swap_ends;
use search_cells::adjacency::link;

mod bans;
mod ends;

// Turns the map in the work area round: it holds the mirrored map, ready for searches. A second call turns it back.
pub fn turn_round(work: &mut [u32], lines: usize)
    requires { (m : Map) × Set m lines work.old }
    ensures { (m : Map) → Set m lines work.old → Turned m lines work.old work.new }
{
    swap_ends(work, lines);
    turn_bans(work, lines);
    link(work, lines);
}
