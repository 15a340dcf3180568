// Offset bytes: the byte of an offset on a leg, and the offsets that a byte may stand for.
ghost use Rattle.std.specs.Prelude.{◌≡◌, ◌+◌, ◌*◌, ◌≤◌, ◌<◌};
ghost use Rattle.model.specs.Field.{greatest_offset_byte, offset_byte};
ghost use Rattle.fields.specs.Offset.{FirstOffset, OffsetsOf};

use model::Span;
use model::limits::{GREATEST_OFFSET_BYTE, OFFSET_STEPS};

// A byte goes up half way between two 256ths of the leg, so offsets are held against 512ths.
const HALF_STEPS: u64 = 2 * OFFSET_STEPS;

// The byte of an offset that lies on its leg: 256 × offset ÷ leg and a half, with both sides of the division doubled. That may be 256, for which 255 is
// written. 512 times the offset may take more than 32 bits.
#[tactic(auto, unfolding(model::specs::Field::nearest_step, model::specs::Field::offset_byte))]
pub fn offset_byte(leg: u32, offset: u32) -> u32
    requires { offset < leg }
    ensures { (result ≡ offset_byte leg offset) × (result < 256) }
{
    let nearest = (HALF_STEPS * offset as u64 + leg as u64) / (2 * leg as u64);
    if GREATEST_OFFSET_BYTE as u64 <= nearest {
        return GREATEST_OFFSET_BYTE;
    }
    nearest as u32
}

// The least offset from 1 on whose byte is at least `byte`: half way before `byte` 256ths of the leg, which are `own` 512ths of a centimetre, rounded up.
// It is the leg's length where there is none.
#[tactic(auto, using(crate::proofs::Offsets::half_before, crate::proofs::Offsets::before_within, crate::proofs::Offsets::none_from))]
fn first_offset(leg: u32, byte: u32, own: u64) -> u32
    requires { (byte ≤ greatest_offset_byte + 1) × (own ≡ 2 * byte * leg) }
    ensures { FirstOffset leg byte result × (0 < byte → result ≤ leg) }
{
    if byte == 0 {
        return 1;
    }
    if byte > GREATEST_OFFSET_BYTE {
        return leg;
    }
    ((own - leg as u64 + (HALF_STEPS - 1)) / HALF_STEPS) as u32
}

// The offsets from 1 to below the leg's length that give the byte, if any. They end where those of a greater byte start.
pub fn span_of(leg: u32, byte: u32) -> Option<Span>
    ensures { OffsetsOf leg byte result }
{
    if GREATEST_OFFSET_BYTE < byte {
        return None;
    }
    let own = (2 * byte) as u64 * leg as u64;
    let first = first_offset(leg, byte, own);
    let next = first_offset(leg, byte + 1, own + 2 * leg as u64);
    if next <= first {
        return None;
    }
    Some(Span {
        least: first,
        greatest: next - 1,
    })
}
