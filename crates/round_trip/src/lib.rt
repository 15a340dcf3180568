// Demand 3 as a claim about calls: what `write` accepts `read` hands back exactly, and nothing else fits the bytes.
#![tactic(auto)]

ghost use Rattle.model.specs.Call.{WriteCall};
ghost use Rattle.round_trip.specs.Given.{stretch_in};
ghost use Rattle.round_trip.specs.Trip.{TripTells, PairTells};

use model::{ReadAnswer, Refusal, WriteAnswer, WrittenBytes};
use reader::read;
use writer::write;

// What was written, or its count of bytes alone, and what the reader answers to exactly those bytes.
#[derive(Clone, Copy)]
pub struct Back<W, A> {
    pub written: W,
    pub answer: A,
}

// A stretch as a user gives it: its lines, its offsets in centimetres, and how many leg tests may be made.
#[derive(Clone, Copy)]
pub struct Given<'a, T> {
    pub stretch: &'a [T],
    pub pos: u32,
    pub neg: u32,
    pub tests: u32,
}

// Which of two is refused, and why.
#[derive(Clone, Copy)]
pub enum Which<E> {
    First(E),
    Second(E),
}

// Writes a stretch as it is given.
fn write_given(map: &[u8], given: Given<u32>, writing: &mut [u32], bytes: &mut [u8]) -> WriteAnswer
    ensures { WriteCall map.now (stretch_in given.entry) given.entry.tests writing.old bytes.old result writing.new bytes.new }
{
    write(
        map,
        given.stretch,
        given.pos,
        given.neg,
        given.tests,
        writing,
        bytes,
    )
}

// Writes a stretch and reads what was written. Each call has its own work area; what the areas and the buffers hold before is arbitrary.
pub fn write_and_read(
    map: &[u8],
    given: Given<u32>,
    writing: &mut [u32],
    bytes: &mut [u8],
    reading: &mut [u32],
    lines: &mut [u32],
) -> Result<Back<WrittenBytes, ReadAnswer>, Refusal>
    ensures { TripTells map.now (stretch_in given.entry) given.entry.tests
        writing.old writing.new bytes.old bytes.new
        reading.old reading.new lines.old lines.new result }
{
    let written = write_given(map, given, writing, bytes)?;
    let answer = read(map, &bytes[..written.bytes], reading, lines);
    Ok(Back { written, answer })
}

// Writes two stretches on one map, each by its own number of leg tests, and where their bytes are the same, reads them. `None` says that the bytes differ.
pub fn write_two_and_read(
    map: &[u8],
    first: Given<u32>,
    second: Given<u32>,
    writing: &mut [u32],
    bytes: &mut [u8],
    others: &mut [u8],
    reading: &mut [u32],
    lines: &mut [u32],
) -> Result<Option<Back<usize, ReadAnswer>>, Which<Refusal>>
    ensures { PairTells map.now (stretch_in first.entry) first.entry.tests
        (stretch_in second.entry) second.entry.tests
        writing.old writing.new bytes.old bytes.new others.old others.new
        reading.old reading.new lines.old lines.new result }
{
    let one = write_given(map, first, writing, bytes).map_err(Which::First)?;
    let other = write_given(map, second, writing, others).map_err(Which::Second)?;
    let same = &bytes[..one.bytes];
    let theirs = &others[..other.bytes];
    if same != theirs {
        return Ok(None);
    }
    let answer = read(map, same, reading, lines);
    Ok(Some(Back {
        written: one.bytes,
        answer,
    }))
}
