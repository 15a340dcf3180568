// A leg's reading: none, exactly one, or several (paper 01, "What counts as a reading").
// `read_to` answers for one terminus of a leg, after a search back from it. A caller that asks for many legs of one search uses `first_lines`.
#![tactic(auto)]

ghost use Rattle.model.specs.Map.{Map};
ghost use Rattle.fields.specs.Leg.{leg_in};
ghost use Rattle.legs.specs.Verdict.{TerminusOf, ReadingTo, StandsIn, Judged};
ghost use Rattle.search_cells.specs.Area.{Set};
ghost use Rattle.way_lengths.specs.Ways.{Stands};

use fields::leg::{Leg, Verdict, longest_leg};
use first_lines::from_lines;
use search::search;
use way_lengths::Terminus;

pub mod attributes;
pub mod first_lines;

// The verdict on the readings that end at a terminus of the leg. Where it is one, its lines stand in the work area.
pub fn read_to(work: &mut [u32], lines: usize, to: Terminus, leg: Leg) -> Verdict
    requires { (m : Map) × Set m lines work.old × TerminusOf m (leg_in leg) to × Stands m lines to }
    ensures { (m : Map) → Set m lines work.old → TerminusOf m (leg_in leg) to → Stands m lines to
        → Judged m lines (ReadingTo m (leg_in leg) to) (StandsIn work.new) work.old work.new result }
{
    let limit = longest_leg(leg.distance);
    search(work, lines, to, leg.lowest, limit);
    from_lines(work, lines, leg, limit)
}
