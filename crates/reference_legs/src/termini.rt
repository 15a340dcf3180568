// The termini of a leg, one after another: its end node; or, on the last leg, each line that arrives there.
ghost use Rattle.std.specs.Prelude.{◌≡◌, ◌≤◌, ◌<◌, length};
ghost use Rattle.model.specs.Map.{Map};
ghost use Rattle.search_cells.specs.Area.{Set};
ghost use Rattle.fields.specs.Leg.{arrival_in, leg_in};
ghost use Rattle.legs.specs.Verdict.{ReadingTo, StandsIn, Judged};
ghost use Rattle.reference_legs.specs.TerminusAt.{first_at, next_at, terminus_at, Standing};

use fields::leg::{Leg, Verdict};
use legs::attributes::arrives_as;
use legs::read_to;
use search_cells::adjacency::{first_leaving, next_leaving};
use way_lengths::Terminus;

// Where the first terminus of a leg is: 1 + the line, for a leg that any line may end the count of lines, which stands for its end node, or 0 for none.
// The cells of the lent work area hold the lines of a chain so.
#[tactic(auto, unfolding(fields::specs::Leg::arrival_in))]
pub fn first_terminus(work: &[u32], lines: usize, leg: Leg) -> usize
    requires { (m : Map) × Set m lines work.now × (leg.to < length m.nodes) }
    ensures { (m : Map) → Set m lines work.now → leg.to < length m.nodes
        → result ≡ first_at m lines (arrival_in leg.arrival) leg.to }
{
    match leg.arrival {
        None => lines,
        Some(_) => first_leaving(work, lines, leg.to),
    }
}

// Where the next one is.
#[tactic(auto, unfolding(fields::specs::Leg::arrival_in))]
pub fn next_terminus(work: &[u32], lines: usize, at: usize, leg: Leg) -> usize
    requires at_nonzero { (0 < at) × (at ≤ lines) }
    requires set { (m : Map) × Set m lines work.now }
    ensures { (m : Map) → Set m lines work.now → result ≡ next_at m (arrival_in leg.arrival) at }
{
    match leg.arrival {
        None => 0,
        Some(_) => next_leaving(work, lines, at),
    }
}

// The verdict on the readings that end at the terminus `at`. A line with other attributes than the leg's has none.
pub fn read_terminus(work: &mut [u32], lines: usize, at: usize, leg: Leg) -> Verdict
    requires at_nonzero { (0 < at) × (at ≤ lines) }
    requires set { (m : Map) × Set m lines work.old × (leg.to < length m.nodes) × Standing m lines (arrival_in leg.arrival) leg.to at }
    ensures { (m : Map) → Set m lines work.old → leg.to < length m.nodes → Standing m lines (arrival_in leg.arrival) leg.to at
        → Judged m lines (ReadingTo m (leg_in leg) (terminus_at (arrival_in leg.arrival) leg.to at)) (StandsIn work.new)
        work.old work.new result }
{
    let Some(attributes) = leg.arrival else {
        return read_to(work, lines, Terminus::Node(leg.to), leg);
    };
    if !arrives_as(work, lines, at - 1, attributes) {
        return Verdict::Unread;
    }
    read_to(work, lines, Terminus::Line(at - 1), leg)
}
