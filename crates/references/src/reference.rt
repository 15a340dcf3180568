// A reference's bytes: whether they have the form of one, and what their fields say.
ghost use Rattle.std.specs.Prelude.{◌≡◌, ◌+◌, ◌*◌, ◌≤◌, ◌<◌, true, length, get_or};
ghost use Rattle.model.specs.Reference.{attributes, flags, spare_bits, offset_at};
ghost use Rattle.fields.specs.Leg.{attributes_in};
ghost use Rattle.references.specs.Form.{SoundBytes, offset_in};

use fields::leg::Attributes;
use model::Refusal;
use model::limits::LONGEST_REFERENCE;

// A reference: its bytes, and its count of points but the last, which is its count of legs.
#[derive(Clone, Copy)]
pub struct Reference<'a> {
    pub bytes: &'a [u8],
    pub points: usize,
    pub ghost sound: { SoundBytes bytes.now points },
}

impl<'a> Reference<'a> {
    ghost use Rattle.references.specs.Formed.{FormOf, reference_in};

    // The status byte, which comes first.
    pub const STATUS: u8 = 0x0B;

    // How many bytes the first point has, each one between, and the last.
    pub const FIRST_POINT: usize = 9;

    pub const MIDDLE_POINT: usize = 7;

    pub const LAST_POINT: usize = 6;

    // How many bytes a reference has at least, 16: those of the status, a first and a last point. And how many at most.
    pub const SHORTEST: usize = 1 + Self::FIRST_POINT + Self::LAST_POINT;

    pub const LONGEST: usize = LONGEST_REFERENCE;

    // The greatest count of points, with the last.
    pub const MOST_POINTS: usize = 65;

    // Where the first point's P stands. Each later P stands a middle point's length after the one before it.
    pub const FIRST_P: usize = 7;

    // The reference that the bytes are, or the first of refusals 12 to 15. What is over after whole points are offset bytes, at most 2.
    pub fn of(bytes: &'a [u8]) -> Result<Self, Refusal>
        ensures { FormOf bytes.now result }
    {
        let n = bytes.len();
        if n < Self::SHORTEST || Self::LONGEST < n {
            return Err(Refusal::ReferenceLength);
        }
        let left = (n - Self::SHORTEST) % Self::MIDDLE_POINT;
        if 2 < left {
            return Err(Refusal::ReferenceLength);
        }
        if bytes[0] != Self::STATUS {
            return Err(Refusal::ReferenceStatus);
        }
        let points = (n - Self::SHORTEST) / Self::MIDDLE_POINT + 1;
        if spare_bits(bytes, points) {
            return Err(Refusal::ReferenceBits);
        }
        if flag_count(byte_r(bytes, points)) != left {
            return Err(Refusal::ReferenceFlags);
        }
        Ok(Reference { bytes, points })
    }

    // The positive offset.
    pub fn positive_offset(self) -> Option<u32>
        ensures { offset_in result ≡ (reference_in self.entry).pos }
    {
        let r = byte_r(self.bytes, self.points);
        offset_at(
            self.bytes,
            r / 64 % 2 == 1,
            Self::FIRST_P + 2 + Self::MIDDLE_POINT * self.points,
        )
    }

    // The negative offset. Its byte stands after that of the positive one.
    pub fn negative_offset(self) -> Option<u32>
        ensures { offset_in result ≡ (reference_in self.entry).neg }
    {
        let r = byte_r(self.bytes, self.points);
        let positive = (r / 64 % 2) as usize;
        offset_at(
            self.bytes,
            r / 32 % 2 == 1,
            Self::FIRST_P + 2 + Self::MIDDLE_POINT * self.points + positive,
        )
    }
}

// The byte at `i`, as a number.
pub fn byte_at(bytes: &[u8], i: usize) -> u32
    requires { i < length bytes.now }
    ensures { (result ≡ get_or bytes.now i 0) × (result < 256) }
{
    u32::from(bytes[i])
}

// Byte R, after the last point's P.
fn byte_r(bytes: &[u8], points: usize) -> u32
    requires { (9 + 7 * points ≤ length bytes.now) × (points ≤ 64) }
    ensures { (result ≡ get_or bytes.now (8 + 7 * points) 0) × (result < 256) }
{
    byte_at(
        bytes,
        Reference::FIRST_P + 1 + Reference::MIDDLE_POINT * points,
    )
}

// How many offsets byte R flags.
#[tactic(auto, unfolding(model::specs::Reference::flags))]
fn flag_count(r: u32) -> usize
    ensures { result ≡ flags r }
{
    (r / 64 % 2 + r / 32 % 2) as usize
}

// Whether a bit is set that should be zero: bit 7 or 6 of a P, the last one's too, or bit 7 of R.
fn spare_bits(bytes: &[u8], points: usize) -> bool
    requires { (9 + 7 * points ≤ length bytes.now) × (points ≤ 64) }
    ensures { result ≡ spare_bits bytes.now 7 points }
{
    for k in 0..points {
        if 64 <= byte_at(bytes, Reference::FIRST_P + Reference::MIDDLE_POINT * k) {
            return true;
        }
    }
    64 <= byte_at(bytes, Reference::FIRST_P + Reference::MIDDLE_POINT * points)
        || 128 <= byte_r(bytes, points)
}

// What a P at byte `p` and a sector in byte `s` say of a line.
#[tactic(auto, unfolding(model::specs::Reference::attributes, fields::specs::Leg::attributes_in))]
pub fn attributes_at(bytes: &[u8], p: usize, s: usize) -> Attributes
    requires { (p < length bytes.now) × (s < length bytes.now) }
    ensures { attributes_in result ≡ attributes (get_or bytes.now p 0) (get_or bytes.now s 0) }
{
    let classes = byte_at(bytes, p);
    let sectors = byte_at(bytes, s);
    Attributes {
        frc: classes / 8,
        fow: classes % 8,
        sector: sectors % 32,
    }
}

// The offset byte at `i`, if flagged.
#[tactic(auto, unfolding(model::specs::Reference::offset_at))]
fn offset_at(bytes: &[u8], flagged: bool, i: usize) -> Option<u32>
    requires { flagged ≡ true → i < length bytes.now }
    ensures { offset_in result ≡ offset_at flagged bytes.now i }
{
    if flagged {
        Some(byte_at(bytes, i))
    } else {
        None
    }
}
