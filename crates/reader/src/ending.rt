// What is asked once every leg is read: whether a banned turn stands where two meet, the offsets' spans, and whether the lines fit their buffer.
ghost use Rattle.std.specs.Prelude.{ℕ, List};
ghost use Rattle.model.specs.Map.{Map};
ghost use Rattle.references.specs.Form.{offset_in};
ghost use Rattle.references.specs.Formed.{reference_in};
ghost use Rattle.reference_legs.specs.Legs.{SumsOf};
ghost use Rattle.reader.specs.Ending.{SpansOf, Ended};

use fields::offset::span_of;
use model::{ReadAnswer, ReadLines, Refusal, Span};
use reference_legs::Sums;
use references::reference::Reference;

// The span of an offset on a leg of this length: 0 and 0 where there is no byte.
fn span(leg: u32, offset: Option<u32>) -> Result<Span, Refusal>
    ensures { SpansOf leg (offset_in offset) result }
{
    match offset {
        None => Ok(Span {
            least: 0,
            greatest: 0,
        }),
        Some(byte) => span_of(leg, byte).ok_or(Refusal::NoOffset),
    }
}

// The answer for legs of these sums and a line buffer of `room` numbers. The positive offset lies on the first leg, the negative on the last.
pub fn answer(reference: Reference, sums: Sums, room: usize) -> ReadAnswer
    ensures { (m : Map) → (lists : List (List ℕ)) → SumsOf m lists sums
        → Ended m (reference_in reference.entry) room lists result }
{
    if sums.barred {
        return Err(Refusal::JoinedBan);
    }
    let positive = span(sums.first, reference.positive_offset())?;
    let negative = span(sums.last, reference.negative_offset())?;
    if sums.length as u64 <= positive.least as u64 + negative.least as u64 {
        return Err(Refusal::NoOffset);
    }
    if room < sums.count {
        return Err(Refusal::LinesShort);
    }
    Ok(ReadLines {
        count: sums.count,
        positive,
        negative,
    })
}
