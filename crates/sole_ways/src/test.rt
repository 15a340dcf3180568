// The test of one leg of a row: whether its lines are a sole way.
ghost use Rattle.std.specs.Prelude.{◌≡◌, true, ◌≤◌, ◌<◌, ◌+◌, ◌/◌, length, get_or, MatchOption};
ghost use Rattle.std.proofs.Math.Seq.{slice};
ghost use Rattle.model.specs.Map.{Map};
ghost use Rattle.model.specs.Reading.{greatest_leg_length};
ghost use Rattle.work_area.specs.Mirror.{mirror};
ghost use Rattle.search_cells.specs.Area.{Set};
ghost use Rattle.buffers.specs.Decides.{Decides};
ghost use Rattle.sole_ways.specs.SoleWays.{SoleUnder, own_end, OnTrial, Follows, FollowsIf, EndsBy, Serves, Advanced, Arriving, Served, Looked, LegTested};

use crate::ahead::{Along, search_ahead};
use crate::along::{advance, has_rival};
use crate::part::Part;
use stretches::lines::LineList;

// The greatest FRC.
const LOWEST_CLASS: u32 = 7;

// Whether a leg's lines are a sole way, and what the search for its row serves.
#[derive(Clone, Copy)]
pub struct SoleTest {
    pub sole: bool,
    pub along: Along,
}

// A guess of how long the legs of a row get, once one of them has this length. For the first search of a row it is `reach`, what the row before came to. A
// row that goes on past that is likely to go on for some legs more.
fn guess(len: u32, reach: u32, last: Option<Along>) -> u32
    requires { len ≤ greatest_leg_length }
    ensures { MatchOption last (result ≡ reach) (λ along. result ≡ len + len / 2) }
{
    if last.is_some() { len + len / 2 } else { reach }
}

// The search that serves a part: the last one of the row, or one that is made now.
fn serve(
    work: &mut [u32],
    stretch: LineList,
    part: Part,
    end: usize,
    reach: u32,
    before: Option<Along>,
) -> Along
    requires end_in_bounds { end ≤ length stretch.numbers.now }
    requires set { (m : Map) × Set m stretch.lines work.old × OnTrial m stretch.lines stretch.numbers.now part × EndsBy before part.to
        × FollowsIf m stretch.lines stretch.numbers.now part.from work.old before }
    ensures { (m : Map) → Set m stretch.entry.lines work.old → OnTrial m stretch.entry.lines stretch.entry.numbers.now part → EndsBy before part.to
        → FollowsIf m stretch.entry.lines stretch.entry.numbers.now part.from work.old before
        → Served m stretch.entry.lines stretch.entry.numbers.now part work.old work.new result }
{
    if let Some(last) = before {
        if part.class <= last.class {
            if part.length <= last.limit {
                return last;
            }
        }
    }
    let far = guess(part.length, reach, before);
    search_ahead(work, stretch, part, end, LOWEST_CLASS, far)
}

// Whether a leg's lines are a sole way among those that the search went along. They are the only way up to position `at`.
fn is_sole(work: &[u32], stretch: LineList, part: Part, arrivals: &[u32], at: usize) -> bool
    requires stretch_len_bound { length stretch.numbers.now ≤ 64 }
    requires set { (m : Map) × (a : Along) × Set m stretch.lines work.now × OnTrial m stretch.lines stretch.numbers.now part × Arriving m stretch.lines stretch.numbers.now arrivals.now
        × Follows m stretch.lines stretch.numbers.now part.from work.now a × Serves part a
        × Advanced m stretch.lines stretch.numbers.now part.from part.to work.now a at }
    ensures { (m : Map) → (a : Along) → Set m stretch.entry.lines work.now → OnTrial m stretch.entry.lines stretch.entry.numbers.now part
        → Arriving m stretch.entry.lines stretch.entry.numbers.now arrivals.now → Follows m stretch.entry.lines stretch.entry.numbers.now part.from work.now a
        → Serves part a → Advanced m stretch.entry.lines stretch.entry.numbers.now part.from part.to work.now a at
        → Decides (SoleUnder (mirror m) a.class (slice part.from part.to stretch.entry.numbers.now)
        (own_end (mirror m) stretch.entry.numbers.now part.to)) result }
{
    if at < part.to {
        return false;
    }
    if part.to == stretch.numbers.len() {
        return true;
    }
    !has_rival(work, stretch, part.to, arrivals)
}

// Goes on along a leg's lines after a search that serves it, and tells whether they are a sole way among those that it went along.
fn look(work: &[u32], stretch: LineList, part: Part, arrivals: &[u32], along: Along) -> SoleTest
    requires stretch_len_bound { length stretch.numbers.now ≤ 64 }
    requires set { (m : Map) × Set m stretch.lines work.now × OnTrial m stretch.lines stretch.numbers.now part × Arriving m stretch.lines stretch.numbers.now arrivals.now
        × Follows m stretch.lines stretch.numbers.now part.from work.now along × Serves part along × (along.to ≤ part.to) }
    ensures { (m : Map) → Set m stretch.entry.lines work.now → OnTrial m stretch.entry.lines stretch.entry.numbers.now part
        → Arriving m stretch.entry.lines stretch.entry.numbers.now arrivals.now → Follows m stretch.entry.lines stretch.entry.numbers.now part.from work.now along
        → Serves part along → along.to ≤ part.to → Looked m stretch.entry.lines stretch.entry.numbers.now part work.now along result }
{
    let to = advance(work, stretch, part.from, part.to, along);
    let sole = is_sole(work, stretch, part, arrivals, to);
    SoleTest {
        sole,
        along: Along {
            class: along.class,
            limit: along.limit,
            to,
        },
    }
}

// Tests a leg. A sole way under a greater class is one under its own; where it is none there, its own class is searched.
pub fn test_sole(
    work: &mut [u32],
    stretch: LineList,
    part: Part,
    end: usize,
    arrivals: &[u32],
    reach: u32,
    before: Option<Along>,
) -> SoleTest
    requires stretch_len_bound { (length stretch.numbers.now ≤ 64) × (end ≤ length stretch.numbers.now) }
    requires set { (m : Map) × Set m stretch.lines work.old × OnTrial m stretch.lines stretch.numbers.now part × Arriving m stretch.lines stretch.numbers.now arrivals.now
        × EndsBy before part.to × FollowsIf m stretch.lines stretch.numbers.now part.from work.old before }
    ensures { (m : Map) → Set m stretch.entry.lines work.old → OnTrial m stretch.entry.lines stretch.entry.numbers.now part
        → Arriving m stretch.entry.lines stretch.entry.numbers.now arrivals.now → EndsBy before part.to
        → FollowsIf m stretch.entry.lines stretch.entry.numbers.now part.from work.old before
        → LegTested m stretch.entry.lines stretch.entry.numbers.now part work.old work.new result }
{
    let along = serve(work, stretch, part, end, reach, before);
    let test = look(work, stretch, part, arrivals, along);
    if test.sole {
        return test;
    }
    if along.class == part.class {
        return test;
    }
    let own = search_ahead(work, stretch, part, end, part.class, reach);
    look(work, stretch, part, arrivals, own)
}
