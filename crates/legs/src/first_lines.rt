// What a search back from a terminus of a leg says of the leg's first lines.
ghost use Rattle.std.specs.Prelude.{◌≡◌, ◌<◌};
ghost use Rattle.model.specs.Map.{Map};
ghost use Rattle.work_area.specs.Mirror.{mirror};
ghost use Rattle.way_lengths.specs.declared.Terminus.{Terminus};
ghost use Rattle.search_cells.specs.Area.{Chained};
ghost use Rattle.fields.specs.Leg.{leg_in};
ghost use Rattle.legs.specs.Verdict.{judge_of, both_of, Ready, Says, StandsIn, ReadingFrom, ReadingTo};

use crate::attributes::leaves_as;
use buffers::wide;
use fields::leg::{Leg, Reading, Verdict, distance};
use search_cells::cells::{length_to, line_at};
use ways::{Ways, ways_from};
use work_area::{START, field};

// The verdict on the ways from line `first` to a terminus: they are readings where their length gives byte D, `d`.
#[tactic(auto, unfolding(crate::specs::Verdict::judge_of))]
fn judge(ways: Ways, first: usize, d: u32) -> Verdict
    ensures { result ≡ judge_of ways first d }
{
    match ways {
        Ways::Several(length) if distance(length) == d => Verdict::Several,
        Ways::One(last, length, count) if distance(length) == d => Verdict::One(Reading {
            first,
            last,
            length,
            count,
        }),
        _ => Verdict::Unread,
    }
}

// The verdict on readings of two kinds, by the verdicts on each.
#[tactic(auto, unfolding(crate::specs::Verdict::both_of))]
pub fn both(a: Verdict, b: Verdict) -> Verdict
    ensures { result ≡ both_of a b }
{
    match a {
        Verdict::Unread => b,
        Verdict::One(reading) => match b {
            Verdict::Unread => Verdict::One(reading),
            Verdict::One(_) => Verdict::Several,
            Verdict::Several => Verdict::Several,
        },
        Verdict::Several => Verdict::Several,
    }
}

// The verdict on the readings from line `first` to the terminus.
pub fn from_line(work: &[u32], lines: usize, first: usize, leg: Leg, limit: u32) -> Verdict
    requires first_lt_lines { first < lines }
    requires ready { (m : Map) × (to : Terminus) × Ready m lines leg to limit work.now }
    ensures { (m : Map) → (to : Terminus) → Ready m lines leg to limit work.now
        → Says m (ReadingFrom m (leg_in leg) first to) (StandsIn work.now) result }
{
    if wide(field(work, first, START)) != leg.from {
        return Verdict::Unread;
    }
    let leaves = leg.leaves;
    if !leaves_as(work, lines, first, leaves) {
        return Verdict::Unread;
    }
    // Where its least length is of another D, its ways need not be gone along.
    if distance(length_to(work, first)) != leg.distance {
        return Verdict::Unread;
    }
    judge(ways_from(work, lines, first, limit), first, leg.distance)
}

// The verdict on the readings to the terminus from all lines: each that is reached by itself.
pub fn from_lines(work: &[u32], lines: usize, leg: Leg, limit: u32) -> Verdict
    requires { (m : Map) × (to : Terminus) × Ready m lines leg to limit work.now × Chained work.now lines (mirror m) }
    ensures { (m : Map) → (to : Terminus) → Ready m lines leg to limit work.now → Chained work.now lines (mirror m)
        → Says m (ReadingTo m (leg_in leg) to) (StandsIn work.now) result }
{
    let mut found = Verdict::Unread;
    for i in 0..lines {
        let at = line_at(work, i);
        if at == 0 {
            return found;
        }
        found = both(found, from_line(work, lines, at - 1, leg, limit));
        if let Verdict::Several = found {
            return found;
        }
    }
    found
}
