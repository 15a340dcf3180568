// The bytes of a point along line (paper 02, W5): whether some bytes have that form, and the marks that tell it from a line reference with the same points.
#![tactic(auto)]

ghost use Rattle.std.specs.Prelude.{◌≡◌, ◌≤◌, ◌<◌, ◌/◌, length, get_or};
ghost use Rattle.model.specs.Work.{placed};
ghost use Rattle.model.specs.PointAlong.{shortest_point, greatest_mark};
ghost use Rattle.point_bytes.specs.PointForm.{FormOf, with_marks, without_marks};

use buffers::copy;
use model::Refusal;
use references::reference::{Reference, byte_at};

// What tells a point along line from a line reference: its orientation and the side of road.
// They are numbers and no enums, since a host may give any number, and `write_point` refuses those above 3.
#[derive(Clone, Copy)]
pub struct Marks {
    pub orientation: u32,
    pub side: u32,
}

impl Marks {
    // The status byte of a point along line.
    pub const STATUS: u8 = 0x2B;

    // How many bytes it has, without its offset's byte and with it.
    pub const SHORTEST: usize = Reference::SHORTEST;

    pub const LONGEST: usize = Reference::SHORTEST + 1;

    // Where the P of its two points and R stand. A mark is in bits 7 and 6 of a P.
    pub const FIRST_P: usize = Reference::FIRST_P;

    pub const LAST_P: usize = Reference::FIRST_P + Reference::MIDDLE_POINT;

    pub const R: usize = Reference::FIRST_P + Reference::MIDDLE_POINT + 1;

    pub const WEIGHT: u32 = 64;
}

// Whether the bytes are a point along line, or the first of refusals 12 to 15.
pub fn form_of(bytes: &[u8]) -> Result<(), Refusal>
    ensures { FormOf bytes.now result }
{
    let n = bytes.len();
    if n < Marks::SHORTEST || Marks::LONGEST < n {
        return Err(Refusal::ReferenceLength);
    }
    if bytes[0] != Marks::STATUS {
        return Err(Refusal::ReferenceStatus);
    }
    let r = byte_at(bytes, Marks::R);
    if 128 <= r || r / 32 % 2 == 1 {
        return Err(Refusal::ReferenceBits);
    }
    if n - Marks::SHORTEST != (r / 64 % 2) as usize {
        return Err(Refusal::ReferenceFlags);
    }
    Ok(())
}

// The marks that stand in the bytes of a point along line.
pub fn marks_in(bytes: &[u8]) -> Marks
    requires { shortest_point ≤ length bytes.now }
    ensures { (result.orientation ≡ get_or bytes.now 7 0 / 64) × (result.side ≡ get_or bytes.now 14 0 / 64) }
{
    let orientation = byte_at(bytes, Marks::FIRST_P) / Marks::WEIGHT;
    let side = byte_at(bytes, Marks::LAST_P) / Marks::WEIGHT;
    Marks { orientation, side }
}

// Puts the bytes of the line reference with the same points as a point along line.
pub fn put_line(bytes: &[u8], line: &mut [u8])
    requires { (shortest_point ≤ length bytes.now) × (length bytes.now ≤ length line.old) }
    ensures { line.new ≡ placed (without_marks bytes.now) line.old }
{
    copy(bytes, line);
    let first = byte_at(bytes, Marks::FIRST_P) % Marks::WEIGHT;
    let last = byte_at(bytes, Marks::LAST_P) % Marks::WEIGHT;
    line[0] = Reference::STATUS;
    line[Marks::FIRST_P] = first as u8;
    line[Marks::LAST_P] = last as u8;
}

// Makes the bytes of a line reference with two points those of a point along line.
#[tactic(auto, unfolding(crate::specs::PointForm::with_marks))]
pub fn put_marks(bytes: &mut [u8], marks: Marks)
    requires shortest_point_in_bounds { (shortest_point ≤ length bytes.old) × (get_or bytes.old 7 0 < 64) × (get_or bytes.old 14 0 < 64) }
    requires orientation_le_greatest_mark { (marks.orientation ≤ greatest_mark) × (marks.side ≤ greatest_mark) }
    ensures { bytes.new ≡ with_marks marks.orientation marks.side bytes.old }
{
    let first = marks.orientation * Marks::WEIGHT + byte_at(bytes, Marks::FIRST_P);
    let last = marks.side * Marks::WEIGHT + byte_at(bytes, Marks::LAST_P);
    bytes[0] = Marks::STATUS;
    bytes[Marks::FIRST_P] = first as u8;
    bytes[Marks::LAST_P] = last as u8;
}
