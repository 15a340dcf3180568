// A leg of a stretch before any search: whether its differences fit, and the leg as its bytes will say.
ghost use Rattle.std.specs.Prelude.{◌≡◌, cond, ◌-◌, ◌≤◌, ◌<◌, length, get_or, eqb};
ghost use Rattle.std.proofs.Math.Seq.{slice};
ghost use Rattle.model.specs.Map.{Map};
ghost use Rattle.model.specs.Field.{distance};
ghost use Rattle.model.specs.Lines.{node_at, arriving};
ghost use Rattle.model.specs.Difference.{Near, DifferencesFit};
ghost use Rattle.model.specs.Reading.{any, matching};
ghost use Rattle.work_area.specs.Area.{Held};
ghost use Rattle.buffers.specs.Decides.{Decides};
ghost use Rattle.fields.specs.Leg.{arrival_in, leg_in};
ghost use Rattle.leg_tests.specs.LegTests.{leg_from, Fits, Measured};

use fields::coordinate::{LONGITUDE_ADDED, difference, longitude_difference};
use fields::leg::{Attributes, Leg, distance};
use stretches::lines::{LineList, coordinate};
use work_area::{END, SECTOR_BACK, SECTOR_OUT, START};

// Whether a difference fits 16 bits.
fn near(from: u32, to: u32) -> bool
    ensures { Decides (Near from to) result }
{
    difference(from, to).is_some()
}

// Whether the differences between two nodes fit, that of their longitudes brought round.
fn fits(work: &[u32], lines: usize, from: usize, to: usize) -> bool
    requires { (m : Map) × Held work.now lines m × (from < length m.nodes) × (to < length m.nodes) }
    ensures { (m : Map) → Held work.now lines m → from < length m.nodes → to < length m.nodes
        → Decides (DifferencesFit (node_at m from) (node_at m to)) result }
{
    let eastward = longitude_difference(
        coordinate(work, lines, from, 0),
        coordinate(work, lines, to, 0),
    );
    if !near(LONGITUDE_ADDED, eastward) {
        return false;
    }
    near(
        coordinate(work, lines, from, 1),
        coordinate(work, lines, to, 1),
    )
}

// Whether the differences of the leg from position `i` to position `j` fit.
pub fn leg_fits(work: &[u32], stretch: LineList, i: usize, j: usize) -> bool
    requires bounds { (i < j) × (j ≤ length stretch.numbers.now) }
    requires held { (m : Map) × Held work.now stretch.lines m }
    ensures { (m : Map) → Held work.now stretch.entry.lines m → Decides (Fits m (slice i j stretch.entry.numbers.now)) result }
{
    let from = stretch.node_of(work, i, START);
    let to = stretch.node_of(work, j - 1, END);
    fits(work, stretch.lines, from, to)
}

// How the leg to position `j` ends: with any line, or, on the last leg, as its last line does.
fn arrival_to(work: &[u32], stretch: LineList, j: usize) -> Option<Attributes>
    requires bounds { (0 < j) × (j ≤ length stretch.numbers.now) }
    requires held { (m : Map) × Held work.now stretch.lines m }
    ensures { (m : Map) → Held work.now stretch.entry.lines m
        → arrival_in result ≡ cond (eqb j (length stretch.entry.numbers.now)) (matching (arriving m (get_or stretch.entry.numbers.now (j - 1) 0))) any }
{
    if j < stretch.numbers.len() {
        return None;
    }
    Some(stretch.attributes_of(work, j - 1, SECTOR_BACK))
}

// The leg from position `i` to position `j`, of this lowest class and length, as its bytes will say.
pub fn leg_of(work: &[u32], stretch: LineList, i: usize, j: usize, class: u32, len: u32) -> Leg
    requires bounds { (i < j) × (j ≤ length stretch.numbers.now) }
    requires held { (m : Map) × Held work.now stretch.lines m }
    ensures { (m : Map) → Held work.now stretch.entry.lines m → Measured m stretch.entry.numbers.now i j class len
        → leg_in result ≡ leg_from m stretch.entry.numbers.now i j }
{
    let from = stretch.node_of(work, i, START);
    let to = stretch.node_of(work, j - 1, END);
    let leaves = stretch.attributes_of(work, i, SECTOR_OUT);
    let arrival = arrival_to(work, stretch, j);
    let distance = distance(len);
    Leg {
        from,
        to,
        leaves,
        lowest: class,
        distance,
        arrival,
    }
}
