// The point that a leg starts at, from the leg's lines.
ghost use Rattle.std.specs.Prelude.{◌≡◌, Bool, ◌≤◌, length};
ghost use Rattle.model.specs.Map.{Map};
ghost use Rattle.model.specs.Difference.{Near, difference};
ghost use Rattle.model.specs.Choice.{Good};
ghost use Rattle.work_area.specs.Area.{Held};
ghost use Rattle.reference_bytes.specs.Point.{PointIs, DifferencesAre};

use fields::coordinate::{LONGITUDE_ADDED, difference, longitude_difference};
use fields::leg::distance;
use stretches::lines::{LineList, coordinate};
use work_area::{END, SECTOR_OUT, START};

// The numbers in the bytes of a point but the last: P, Q and D, and the differences to the next point.
#[derive(Clone, Copy)]
pub struct Point {
    pub p: u32,
    pub q: u32,
    pub d: u32,
    pub lon: u32,
    pub lat: u32,
}

// The differences from the first to the last node of a leg.
#[derive(Clone, Copy)]
pub struct Differences {
    pub lon: u32,
    pub lat: u32,
}

// A difference that fits 16 bits.
fn near_difference(from: u32, to: u32) -> u32
    requires { Near from to }
    ensures { result ≡ difference from to }
{
    difference(from, to).unwrap()
}

// The differences of a leg that may be used, that of longitudes brought round.
fn differences_of(work: &[u32], leg: LineList) -> Differences
    requires held { (m : Map) × (last : Bool) × Held work.now leg.lines m × Good m last leg.numbers.now }
    ensures { (m : Map) → (last : Bool) → Held work.now leg.entry.lines m → Good m last leg.entry.numbers.now
        → DifferencesAre m leg.entry.numbers.now result }
{
    let from = leg.node_of(work, 0, START);
    let to = leg.node_of(work, leg.numbers.len() - 1, END);
    let eastward = longitude_difference(
        coordinate(work, leg.lines, from, 0),
        coordinate(work, leg.lines, to, 0),
    );
    let lon = near_difference(LONGITUDE_ADDED, eastward);
    let lat = near_difference(
        coordinate(work, leg.lines, from, 1),
        coordinate(work, leg.lines, to, 1),
    );
    Differences { lon, lat }
}

// The point that a leg that may be used starts at.
#[tactic(auto, using(crate::proofs::Points::small))]
pub fn point_of(work: &[u32], leg: LineList) -> Point
    requires few { length leg.numbers.now ≤ 64 }
    requires held { (m : Map) × (last : Bool) × Held work.now leg.lines m × Good m last leg.numbers.now }
    ensures { (m : Map) → (last : Bool) → Held work.now leg.entry.lines m → Good m last leg.entry.numbers.now
        → PointIs m leg.entry.numbers.now result }
{
    let leaves = leg.attributes_of(work, 0, SECTOR_OUT);
    let lowest = leg.lowest_class(work);
    let length = leg.total_length(work);
    let by = differences_of(work, leg);
    let p = leaves.frc * 8 + leaves.fow;
    let q = lowest * 32 + leaves.sector;
    let d = distance(length as u32);
    Point {
        p,
        q,
        d,
        lon: by.lon,
        lat: by.lat,
    }
}
