// After a search from the first line of a row's legs: how far the stretch's own lines are the only way, and whether another line arrives as near.
ghost use Rattle.std.specs.Prelude.{◌≡◌, ◌+◌, ◌-◌, ◌≤◌, ◌<◌, length, get_or};
ghost use Rattle.std.proofs.Math.Seq.{slice};
ghost use Rattle.model.specs.Map.{Map};
ghost use Rattle.model.specs.Reading.{greatest_leg_length};
ghost use Rattle.model.specs.Lines.{line_at, Connected, total, lowest};
ghost use Rattle.work_area.specs.Mirror.{mirror};
ghost use Rattle.way_lengths.specs.Ways.{line};
ghost use Rattle.search_cells.specs.Area.{Set, length_to, predecessor};
ghost use Rattle.buffers.specs.Decides.{Decides};
ghost use Rattle.sole_ways.specs.SoleWays.{Follows, Advanced, Arriving, Rival, SoleUnder};

use crate::ahead::Along;
use buffers::wide;
use search_cells::cells::{length_to, predecessor_at};
use stretches::lines::LineList;
use work_area::LENGTH;

// Where the lists of the lines that arrive begin with the numbers of lines; those of positions stand before.
pub const ARRIVALS: usize = 65;

// Whether the way to the line at position `at` comes from the line before it alone, and is as long as the way to that and the line.
fn steps_on(work: &[u32], stretch: LineList, at: usize) -> bool
    requires bounds { (0 < at) × (at < length stretch.numbers.now)
        × (length_to work.now (get_or stretch.numbers.now (at - 1) 0) ≤ greatest_leg_length) }
    requires set { (m : Map) × Set m stretch.lines work.now }
    ensures { (m : Map) → Set m stretch.entry.lines work.now
        → Decides ((length_to work.now (get_or stretch.entry.numbers.now at 0)
        ≡ length_to work.now (get_or stretch.entry.numbers.now (at - 1) 0) + (line_at m (get_or stretch.entry.numbers.now at 0)).length)
        × (predecessor work.now (get_or stretch.entry.numbers.now at 0) ≡ get_or stretch.entry.numbers.now (at - 1) 0 + 1)) result }
{
    let here = wide(stretch.numbers[at]);
    let before = wide(stretch.numbers[at - 1]);
    let length = stretch.field_of(work, at, LENGTH);
    if length_to(work, here) != length_to(work, before) + length {
        return false;
    }
    if wide(predecessor_at(work, here)) != before + 1 {
        return false;
    }
    true
}

// Goes on along the stretch's lines while they are the only way, to position `to` at most: the position it comes to. A test costs a step.
pub fn advance(work: &[u32], stretch: LineList, from: usize, to: usize, before: Along) -> usize
    requires to_le_to { (before.to ≤ to) × (to ≤ length stretch.numbers.now) }
    requires set { (m : Map) × Set m stretch.lines work.now × Connected (mirror m) stretch.numbers.now × Follows m stretch.lines stretch.numbers.now from work.now before
        × (total (mirror m) (slice from to stretch.numbers.now) ≤ before.limit) × (lowest (mirror m) (slice from to stretch.numbers.now) ≤ before.class) }
    ensures { (m : Map) → Set m stretch.entry.lines work.now → Connected (mirror m) stretch.entry.numbers.now
        → Follows m stretch.entry.lines stretch.entry.numbers.now from work.now before
        → total (mirror m) (slice from to stretch.entry.numbers.now) ≤ before.limit
        → lowest (mirror m) (slice from to stretch.entry.numbers.now) ≤ before.class
        → Advanced m stretch.entry.lines stretch.entry.numbers.now from to work.now before result }
{
    for at in before.to..to {
        if !steps_on(work, stretch, at) {
            return at;
        }
    }
    to
}

// Whether line `l` is as near as line `own`, and another.
fn is_rival(work: &[u32], lines: usize, l: usize, own: usize) -> bool
    requires { (l < lines) × (own < lines) × ((m : Map) × Set m lines work.now) }
    ensures { Decides (((l ≡ own) → ⊥) × (length_to work.now l ≤ length_to work.now own)) result }
{
    if l == own {
        return false;
    }
    if length_to(work, own) < length_to(work, l) {
        return false;
    }
    true
}

// Whether another line that arrives at the node at position `to` is as near as the stretch's own.
pub fn has_rival(work: &[u32], stretch: LineList, to: usize, arrivals: &[u32]) -> bool
    requires to_nonzero { (0 < to) × (to ≤ length stretch.numbers.now) × (to < 65) }
    requires set { (m : Map) × Set m stretch.lines work.now × Arriving m stretch.lines stretch.numbers.now arrivals.now }
    ensures { (m : Map) → Set m stretch.entry.lines work.now → Arriving m stretch.entry.lines stretch.entry.numbers.now arrivals.now
        → Decides (Rival m stretch.entry.lines (get_or stretch.entry.numbers.now (to - 1) 0) work.now) result }
{
    let own = wide(stretch.numbers[to - 1]);
    let mut at = wide(arrivals[to]);
    while 0 < at {
        if is_rival(work, stretch.lines, at - 1, own) {
            return true;
        }
        at = wide(arrivals[ARRIVALS + (at - 1)]);
    }
    false
}
