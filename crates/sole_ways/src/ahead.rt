// The search for a row of legs: from their first line, as far as the row is likely to go.
ghost use Rattle.std.specs.Prelude.{◌≡◌, ◌≤◌, ◌<◌, min, max, length};
ghost use Rattle.model.specs.Map.{Map};
ghost use Rattle.model.specs.Reading.{greatest_leg_length};
ghost use Rattle.work_area.specs.Area.{Held};
ghost use Rattle.search_cells.specs.Area.{Set};
ghost use Rattle.sole_ways.specs.SoleWays.{OnTrial, SearchedFor};

use crate::part::{Part, one_more};
use buffers::wide;
use model::limits::GREATEST_LEG_LENGTH;
use search::search;
use stretches::lines::LineList;
use way_lengths::Terminus;

// What a search from the first line of a row's legs serves: lines up to a class, and lengths up to a limit. Up to position `to` the stretch's lines are
// the only way of their length.
#[derive(Clone, Copy)]
pub struct Along {
    pub class: u32,
    pub limit: u32,
    pub to: usize,
}

// The length to look ahead to from a leg: its own or `reach`, the greater of them, and no more than a leg can have.
pub fn goal_for(len: u32, reach: u32) -> u32
    ensures { result ≡ min (max len reach) greatest_leg_length }
{
    len.max(reach).min(GREATEST_LEG_LENGTH)
}

// A longer part for a search to look ahead to, so that it serves later legs too: up to `goal` or to position `end`, over lines up to the class `most`.
fn look_ahead(work: &[u32], stretch: LineList, part: Part, end: usize, most: u32, goal: u32) -> Part
    requires bounds { (end ≤ length stretch.numbers.now) × (goal ≤ greatest_leg_length) }
    requires held { (m : Map) × Held work.now stretch.lines m }
    ensures { (part.class ≤ result.class) × (part.length ≤ result.length) × (result.class ≤ max part.class most) }
{
    let mut far = part;
    // The part moves its own end on: a counter beside it would be no plainer.
    while far.to < end {
        if goal <= far.length {
            return far;
        }
        let next = one_more(work, stretch, far);
        if most < next.class {
            return far;
        }
        far = next;
    }
    far
}

// Searches from the first line of a part, for it and for longer ones up to position `end`, over lines of its class or, up to `most`, of a greater one.
// `reach` is a guess of how long the legs of the row get.
pub fn search_ahead(
    work: &mut [u32],
    stretch: LineList,
    part: Part,
    end: usize,
    most: u32,
    reach: u32,
) -> Along
    requires end_in_bounds { end ≤ length stretch.numbers.now }
    requires set { (m : Map) × Set m stretch.lines work.old × OnTrial m stretch.lines stretch.numbers.now part }
    ensures { (m : Map) → Set m stretch.entry.lines work.old → OnTrial m stretch.entry.lines stretch.entry.numbers.now part
        → SearchedFor m stretch.entry.lines stretch.entry.numbers.now part most work.old work.new result }
{
    let goal = goal_for(part.length, reach);
    let far = look_ahead(work, stretch, part, end, most, goal);
    let limit = far.length.min(GREATEST_LEG_LENGTH);
    let from = part.from;
    search(
        work,
        stretch.lines,
        Terminus::Line(wide(stretch.numbers[from])),
        far.class,
        limit,
    );
    Along {
        class: far.class,
        limit,
        to: from + 1,
    }
}
