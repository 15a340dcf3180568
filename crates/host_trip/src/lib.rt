// Demand 3 as a claim about the two functions that a C program calls: what `openlr_write` accepts `openlr_read` hands back exactly.
#![tactic(auto)]

ghost use Rattle.std.specs.Prelude.{◌≡◌, MatchResult};
ghost use Rattle.host_trip.specs.Trip.{WroteSo, NotWritten, TripTells, PairTells};

use openlr::{Lines, Written, openlr_read, openlr_write};
use round_trip::{Back, Given, Which};

pub mod point;

// Writes a stretch as it is given: what was written, or the refusal's number.
fn write_given(map: &[u8], given: Given<u8>, bytes: &mut [u8]) -> Result<Written, u32>
    ensures { MatchResult result
        (λ w. (w.refusal ≡ 0) × WroteSo map.now given.entry.stretch.now given.entry.pos given.entry.neg given.entry.tests bytes.old bytes.new w.bytes w.tests w.excess)
        (λ why. NotWritten map.now given.entry.stretch.now given.entry.pos given.entry.neg given.entry.tests bytes.old bytes.new why) }
{
    let written = openlr_write(map, given.stretch, given.pos, given.neg, given.tests, bytes);
    if written.refusal != 0 {
        return Err(written.refusal);
    }
    Ok(written)
}

// Writes a stretch and reads what was written. What the buffers hold before is arbitrary.
pub fn write_and_read(
    map: &[u8],
    given: Given<u8>,
    bytes: &mut [u8],
    lines: &mut [u8],
) -> Result<Back<Written, Lines>, u32>
    ensures { TripTells map.now given.entry.stretch.now given.entry.pos given.entry.neg given.entry.tests bytes.old bytes.new
        lines.old lines.new result }
{
    let written = write_given(map, given, bytes)?;
    let answer = openlr_read(map, &bytes[..written.bytes as usize], lines);
    Ok(Back { written, answer })
}

// Writes two stretches on one map, each by its own number of leg tests, and where their bytes are the same, reads them. `None` says that the bytes
// differ.
pub fn write_two_and_read(
    map: &[u8],
    first: Given<u8>,
    second: Given<u8>,
    bytes: &mut [u8],
    others: &mut [u8],
    lines: &mut [u8],
) -> Result<Option<Back<u32, Lines>>, Which<u32>>
    ensures { PairTells map.now first.entry.stretch.now first.entry.pos first.entry.neg first.entry.tests
        second.entry.stretch.now second.entry.pos second.entry.neg second.entry.tests
        bytes.old bytes.new others.old others.new lines.old lines.new result }
{
    let one = write_given(map, first, bytes).map_err(Which::First)?;
    let other = write_given(map, second, others).map_err(Which::Second)?;
    let same = &bytes[..one.bytes as usize];
    if same != &others[..other.bytes as usize] {
        return Ok(None);
    }
    let answer = openlr_read(map, same, lines);
    Ok(Some(Back {
        written: one.bytes,
        answer,
    }))
}
