// The search for a leg back from a terminus, and what it says of the leg's own lines: whether they are the only reading there.
ghost use Rattle.std.specs.Prelude.{List, ℕ, ◌≤◌, length};
ghost use Rattle.std.proofs.Math.Seq.{slice};
ghost use Rattle.model.specs.Map.{Map};
ghost use Rattle.model.specs.Field.{distance};
ghost use Rattle.model.specs.Lines.{last_of};
ghost use Rattle.model.specs.Reading.{greatest_leg_length};
ghost use Rattle.work_area.specs.Area.{Held};
ghost use Rattle.work_area.specs.Mirror.{mirror};
ghost use Rattle.way_lengths.specs.declared.Terminus.{Terminus};
ghost use Rattle.way_lengths.specs.Ways.{Ends};
ghost use Rattle.search_cells.specs.Area.{Set};
ghost use Rattle.way_lengths.specs.Ways.{Stands};
ghost use Rattle.buffers.specs.Decides.{Decides};
ghost use Rattle.legs.specs.Verdict.{LimitFor, Says, Anywhere, ReadingTo};
ghost use Rattle.leg_tests.specs.LegTests.{leg_from, Alone, Serves, EndsThere, Sole, OwnLines, DoneFor, DoneUpTo, Trial, Prepared};
ghost use Rattle.model.specs.Reading as definitions;

use crate::leg::leg_of;
use buffers::wide;
use fields::leg::{Verdict, distance, longest_leg};
use legs::first_lines::{from_line, from_lines};
use model::limits::GREATEST_LEG_LENGTH;
use search::search;
use sole_ways::ahead::goal_for;
use stretches::lines::LineList;
use way_lengths::Terminus;
use work_area::{FRC, LENGTH};

// A length for a search to look ahead to from the leg from position `i`, so that it serves longer legs too: `goal`, or how long the legs of
// the same lowest class get where that is less.
fn look_ahead(work: &[u32], stretch: LineList, i: usize, class: u32, len: u32, goal: u32) -> u32
    requires bounds { (i ≤ length stretch.numbers.now) × (goal ≤ greatest_leg_length) }
    requires held { (m : Map) × Held work.now stretch.lines m }
    ensures { len ≤ result }
{
    let mut far = len;
    for k in (0..i).rev() {
        if goal <= far {
            return far;
        }
        if class < stretch.field_of(work, k, FRC) {
            return far;
        }
        far += stretch.field_of(work, k, LENGTH);
    }
    far
}

// The limit of a search for the leg from position `i`, of this lowest class and length, and for longer ones.
fn limit_for(work: &[u32], stretch: LineList, i: usize, class: u32, len: u32) -> u32
    requires bounds { (i ≤ length stretch.numbers.now) × (len ≤ greatest_leg_length) }
    requires held { (m : Map) × Held work.now stretch.lines m }
    ensures { LimitFor (distance len) result }
{
    let goal = goal_for(len + len / 2, 0);
    let far = look_ahead(work, stretch, i, class, len, goal);
    if GREATEST_LEG_LENGTH <= far {
        return GREATEST_LEG_LENGTH;
    }
    longest_leg(distance(far))
}

// A search back from a terminus: over lines up to a class, as far as a limit.
#[derive(Clone, Copy)]
pub struct Done {
    pub class: u32,
    pub limit: u32,
}

// Searches back from a terminus for the leg from position `i`, of this lowest class and length, unless the last search serves it. Gives the
// limit that is searched up to.
pub fn prepare(
    work: &mut [u32],
    stretch: LineList,
    i: usize,
    to: Terminus,
    class: u32,
    len: u32,
    last: Option<Done>,
) -> u32
    requires bounds { (length stretch.numbers.now ≤ 64) × (i ≤ length stretch.numbers.now) × (len ≤ greatest_leg_length) × (class ≤ 7) }
    requires set { (m : Map) × Set m stretch.lines work.old × Stands (mirror m) stretch.lines to }
    ensures { (m : Map) → Set m stretch.entry.lines work.old → Stands (mirror m) stretch.entry.lines to → DoneFor m stretch.entry.lines to last work.old
        → Prepared m stretch.entry.lines class to len work.old work.new result }
{
    if let Some(done) = last {
        if done.class == class {
            if longest_leg(distance(len)) <= done.limit {
                return done.limit;
            }
        }
    }
    let limit = limit_for(work, stretch, i, class, len);
    search(work, stretch.lines, to, class, limit);
    limit
}

// The verdict on the readings of the leg from position `i` to position `j`, after a search back from one of its termini. Where its first line
// is alone, readings have no other.
fn verdict_on(
    work: &[u32],
    stretch: LineList,
    i: usize,
    j: usize,
    class: u32,
    len: u32,
    alone: bool,
    limit: u32,
) -> Verdict
    requires { (m : Map) × (to : Terminus) × Set m stretch.lines work.now × Trial m stretch.lines stretch.numbers.now i j class len
        × Decides (Alone m stretch.lines stretch.numbers.now i) alone × Serves m stretch.lines stretch.numbers.now j to × DoneUpTo m stretch.lines class to len limit work.now }
    ensures { (m : Map) → (to : Terminus) → Set m stretch.entry.lines work.now → Trial m stretch.entry.lines stretch.entry.numbers.now i j class len
        → Decides (Alone m stretch.entry.lines stretch.entry.numbers.now i) alone → Serves m stretch.entry.lines stretch.entry.numbers.now j to
        → DoneUpTo m stretch.entry.lines class to len limit work.now
        → Says m (ReadingTo m (leg_from m stretch.entry.numbers.now i j) to) Anywhere result }
{
    let leg = leg_of(work, stretch, i, j, class, len);
    if alone {
        return from_line(work, stretch.lines, wide(stretch.numbers[i]), leg, limit);
    }
    from_lines(work, stretch.lines, leg, limit)
}

// Whether a leg's own lines, by their first line and their length, are its only reading to their terminus.
fn is_sole(found: Verdict, first: usize, len: u32) -> bool
    ensures { (m : Map) → (leg : definitions.Leg) → (ls : List ℕ) → (to : Terminus) → OwnLines m leg ls to first len
        → Says m (ReadingTo m leg to) Anywhere found → Decides (Sole m leg ls to) result }
{
    match found {
        Verdict::Unread => false,
        Verdict::One(reading) => {
            if reading.first != first {
                return false;
            }
            if reading.length != len {
                return false;
            }
            true
        }
        Verdict::Several => false,
    }
}

// Whether a leg has no reading to a terminus that its own lines do not end at.
fn is_unread(found: Verdict) -> bool
    ensures { (m : Map) → (leg : definitions.Leg) → (ls : List ℕ) → (to : Terminus) → (Ends m to (last_of ls) → ⊥)
        → Says m (ReadingTo m leg to) Anywhere found → Decides (Sole m leg ls to) result }
{
    match found {
        Verdict::Unread => true,
        Verdict::One(_) => false,
        Verdict::Several => false,
    }
}

// Whether the leg from position `i` to position `j` passes the test of a terminus, after a search back from it: of its own, or of another.
pub fn test_leg(
    work: &[u32],
    stretch: LineList,
    i: usize,
    j: usize,
    class: u32,
    len: u32,
    alone: bool,
    own: bool,
    limit: u32,
) -> bool
    requires { (m : Map) × (to : Terminus) × Set m stretch.lines work.now × Trial m stretch.lines stretch.numbers.now i j class len
        × Decides (Alone m stretch.lines stretch.numbers.now i) alone × EndsThere m stretch.lines stretch.numbers.now j to own × (len ≤ greatest_leg_length)
        × DoneUpTo m stretch.lines class to len limit work.now }
    ensures { (m : Map) → (to : Terminus) → Set m stretch.entry.lines work.now → Trial m stretch.entry.lines stretch.entry.numbers.now i j class len
        → Decides (Alone m stretch.entry.lines stretch.entry.numbers.now i) alone → EndsThere m stretch.entry.lines stretch.entry.numbers.now j to own → len ≤ greatest_leg_length
        → DoneUpTo m stretch.entry.lines class to len limit work.now
        → Decides (Sole m (leg_from m stretch.entry.numbers.now i j) (slice i j stretch.entry.numbers.now) to) result }
{
    let found = verdict_on(work, stretch, i, j, class, len, alone, limit);
    if own {
        return is_sole(found, wide(stretch.numbers[i]), len);
    }
    is_unread(found)
}
