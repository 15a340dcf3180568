// The bytes of a reference, put into the lent buffer.
#![tactic(auto)]

ghost use Rattle.std.specs.Prelude.{◌≡◌, ℕ, ◌+◌, ◌*◌, ◌-◌, ◌≤◌, ◌<◌, List, [], ◌++◌, length};
ghost use Rattle.model.specs.Map.{Map};
ghost use Rattle.model.specs.Reference.{point_bytes};
ghost use Rattle.model.specs.Choice.{points_of, stretch_bytes};
ghost use Rattle.work_area.specs.Area.{Held};
ghost use Rattle.fields.specs.Leg.{attributes_in};
ghost use Rattle.model.specs.Stretch.{stretch_of};
ghost use Rattle.point_choice.specs.Cuts.{cut_legs};
ghost use Rattle.reference_bytes.specs.Point.{bytes_of_point, PointIs};
ghost use Rattle.buffers.specs.Placed.{put_at};
ghost use Rattle.reference_bytes.specs.Put.{cut_leg, CutInto, Inside, start_bytes, offset_part, flagged, last_bytes, end_bytes, Puts};

use buffers::bytes::{put1, put2, put3};
use buffers::wide;
use fields::coordinate::{latitude_code, longitude_code};
use fields::leg::Attributes;
use fields::offset::offset_byte;
use point::{Point, point_of};
use references::reference::Reference;
use stretches::lines::{LineList, coordinate};
use work_area::{SECTOR_BACK, START};

mod point;

// The flags of the two offsets in R.
const POSITIVE: u32 = 64;

const NEGATIVE: u32 = 32;

// Puts the status byte and the codes of the first point.
fn put_start(work: &[u32], stretch: LineList, bytes: &mut [u8])
    requires room { (0 < length stretch.numbers.now) × (7 ≤ length bytes.old) }
    requires held { (m : Map) × Held work.now stretch.lines m }
    ensures { (m : Map) → Held work.now stretch.entry.lines m
        → bytes.new ≡ put_at 0 (start_bytes m stretch.entry.numbers.now) bytes.old }
{
    let v = stretch.node_of(work, 0, START);
    let lon = longitude_code(coordinate(work, stretch.lines, v, 0));
    let lat = latitude_code(coordinate(work, stretch.lines, v, 1));
    bytes[0] = Reference::STATUS;
    put3(bytes, 1, lon);
    put3(bytes, 4, lat);
}

// Puts the bytes of a point but the last, and the differences with which the next one starts.
fn put_point(bytes: &mut [u8], at: usize, point: Point)
    requires { (point.p < 256) × (point.q < 256) × (point.d < 256) × (at + 7 ≤ length bytes.old) }
    ensures { bytes.new ≡ put_at at (bytes_of_point point) bytes.old }
{
    put1(bytes, at, point.p);
    put1(bytes, at + 1, point.q);
    put1(bytes, at + 2, point.d);
    put2(bytes, at + 3, point.lon);
    put2(bytes, at + 5, point.lat);
}

// The lines of leg `t`.
fn leg_of<'a>(stretch: LineList<'a>, cuts: &[u32], legs: usize, t: usize) -> LineList<'a>
    requires t_lt_legs { (t < legs) × (legs < length cuts.now) }
    requires by_index { (m : Map) × (cs : List ℕ) × CutInto m stretch.numbers.now cuts.now legs cs }
    ensures map { result.lines ≡ stretch.entry.lines }
    ensures leg { (m : Map) → (cs : List ℕ) → CutInto m stretch.entry.numbers.now cuts.now legs cs
        → result.numbers.now ≡ cut_leg stretch.entry.numbers.now cs t }
{
    stretch.part(wide(cuts[t]), wide(cuts[t + 1]))
}

// Puts the points but the last, one after another.
fn put_points(work: &[u32], stretch: LineList, cuts: &[u32], legs: usize, bytes: &mut [u8])
    requires legs_in_bounds { (legs < length cuts.now) × (7 + 7 * legs ≤ length bytes.old) }
    requires by_index { (m : Map) × (cs : List ℕ) × Held work.now stretch.lines m × CutInto m stretch.numbers.now cuts.now legs cs }
    ensures { (m : Map) → (cs : List ℕ) → Held work.now stretch.entry.lines m
        → CutInto m stretch.entry.numbers.now cuts.now legs cs
        → bytes.new ≡ put_at 7 (point_bytes (points_of m (cut_legs stretch.entry.numbers.now 0 cs)) []) bytes.old }
{
    for t in 0..legs {
        let leg = leg_of(stretch, cuts, legs, t);
        let point = point_of(work, leg);
        put_point(
            bytes,
            Reference::FIRST_P + Reference::MIDDLE_POINT * t,
            point,
        );
    }
}

// The flag of an offset, which is set where it is not 0.
#[tactic(auto, unfolding(crate::specs::Put::flagged))]
fn flag(offset: u32, weight: u32) -> u32
    ensures { (result ≡ flagged offset weight) × (result ≤ weight) }
{
    if offset == 0 { 0 } else { weight }
}

// Puts an offset's byte on its leg, if it is flagged: where the next byte goes.
fn put_offset(bytes: &mut [u8], at: usize, leg: u32, offset: u32) -> usize
    requires { (offset < leg) × (at + flagged offset 1 ≤ length bytes.old) }
    ensures { (result ≡ at + flagged offset 1) × (bytes.new ≡ put_at at (offset_part leg offset) bytes.old) }
{
    if offset == 0 {
        return at;
    }
    put1(bytes, at, offset_byte(leg, offset));
    at + 1
}

// Puts both, the positive one first: where they end.
fn put_offsets(bytes: &mut [u8], at: usize, first: u32, pos: u32, last: u32, neg: u32) -> usize
    requires { (pos < first) × (neg < last) × (at + flagged pos 1 + flagged neg 1 ≤ length bytes.old) }
    ensures { (result ≡ at + flagged pos 1 + flagged neg 1)
        × (bytes.new ≡ put_at at (offset_part first pos ++ offset_part last neg) bytes.old) }
{
    let next = put_offset(bytes, at, first, pos);
    put_offset(bytes, next, last, neg)
}

// Puts P and R of the last point.
fn put_last(bytes: &mut [u8], at: usize, a: Attributes, pos: u32, neg: u32)
    requires { (a.frc ≤ 7) × (a.fow ≤ 7) × (a.sector < 32) × (at + 2 ≤ length bytes.old) }
    ensures { bytes.new ≡ put_at at (last_bytes (attributes_in a) pos neg) bytes.old }
{
    put1(bytes, at, a.frc * 8 + a.fow);
    put1(
        bytes,
        at + 1,
        flag(pos, POSITIVE) + flag(neg, NEGATIVE) + a.sector,
    );
}

// Puts the bytes from the last point's P on: where they end.
fn put_end(
    work: &[u32],
    stretch: LineList,
    cuts: &[u32],
    legs: usize,
    pos: u32,
    neg: u32,
    bytes: &mut [u8],
) -> usize
    requires legs_nonzero { (0 < legs) × (legs < length cuts.now) × (7 + 7 * legs + 2 + flagged pos 1 + flagged neg 1 ≤ length bytes.old) }
    requires by_index { (m : Map) × (cs : List ℕ) × Held work.now stretch.lines m × CutInto m stretch.numbers.now cuts.now legs cs
        × Inside m (stretch_of stretch.numbers.now pos neg) }
    ensures { (result ≡ 7 + 7 * legs + 2 + flagged pos 1 + flagged neg 1)
        × ((m : Map) → (cs : List ℕ) → Held work.now stretch.entry.lines m
        → CutInto m stretch.entry.numbers.now cuts.now legs cs
        → bytes.new ≡ put_at (7 + 7 * legs) (end_bytes m stretch.entry.numbers.now (cut_leg stretch.entry.numbers.now cs 0)
        (cut_leg stretch.entry.numbers.now cs (legs - 1)) pos neg) bytes.old) }
{
    let at = Reference::FIRST_P + Reference::MIDDLE_POINT * legs;
    let a = stretch.attributes_of(work, stretch.numbers.len() - 1, SECTOR_BACK);
    let first = leg_of(stretch, cuts, legs, 0).total_length(work) as u32;
    let last = leg_of(stretch, cuts, legs, legs - 1).total_length(work) as u32;
    put_last(bytes, at, a, pos, neg);
    put_offsets(bytes, at + 2, first, pos, last, neg)
}

// Puts the reference of a stretch that is cut into legs, if the buffer has room for it: the count of its bytes, or none where it has not.
pub fn put(
    work: &[u32],
    stretch: LineList,
    cuts: &[u32],
    legs: usize,
    pos: u32,
    neg: u32,
    bytes: &mut [u8],
) -> Option<usize>
    requires legs_in_bounds { legs < length cuts.now }
    requires by_index { (m : Map) × (cs : List ℕ) × Held work.now stretch.lines m × CutInto m stretch.numbers.now cuts.now legs cs
        × Inside m (stretch_of stretch.numbers.now pos neg) }
    ensures { (m : Map) → (cs : List ℕ) → Held work.now stretch.entry.lines m
        → CutInto m stretch.entry.numbers.now cuts.now legs cs
        → Puts (stretch_bytes m (cut_legs stretch.entry.numbers.now 0 cs) (stretch_of stretch.entry.numbers.now pos neg))
        bytes.old bytes.new result }
{
    let length = Reference::FIRST_P
        + Reference::MIDDLE_POINT * legs
        + 2
        + wide(flag(pos, 1))
        + wide(flag(neg, 1));
    if bytes.len() < length {
        return None;
    }
    put_start(work, stretch, bytes);
    put_points(work, stretch, cuts, legs, bytes);
    let n = put_end(work, stretch, cuts, legs, pos, neg, bytes);
    Some(n)
}
