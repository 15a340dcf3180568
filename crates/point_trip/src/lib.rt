// The claim of W5 (paper 02) about calls: what `write_point` accepts `read_point` hands back, and nothing else fits the bytes.
#![tactic(auto)]

ghost use Rattle.model.specs.PointAlong.{PointWriteCall};
ghost use Rattle.point_trip.specs.Told.{as_given, TripTells, PairTells};

use model::{PointReadAnswer, PointWriteAnswer, Refusal};
use point_reader::read_point;
use point_writer::write_point;
use round_trip::{Back, Which};

// A point as a user gives it.
#[derive(Clone, Copy)]
pub struct Given {
    pub line: u32,
    pub offset: u32,
    pub orientation: u32,
    pub side: u32,
}

// Writes a point as it is given.
fn write_given(map: &[u8], given: Given, writing: &mut [u32], bytes: &mut [u8]) -> PointWriteAnswer
    ensures { PointWriteCall map.now (as_given given) writing.old bytes.old result writing.new bytes.new }
{
    write_point(
        map,
        given.line,
        given.offset,
        given.orientation,
        given.side,
        writing,
        bytes,
    )
}

// Writes a point and reads what was written. Each call has its own work area; what the areas and the buffers hold before is arbitrary.
pub fn write_and_read(
    map: &[u8],
    given: Given,
    writing: &mut [u32],
    bytes: &mut [u8],
    reading: &mut [u32],
    lines: &mut [u32],
) -> Result<Back<usize, PointReadAnswer>, Refusal>
    ensures { TripTells map.now (as_given given)
        writing.old writing.new bytes.old bytes.new
        reading.old reading.new lines.old lines.new result }
{
    let written = write_given(map, given, writing, bytes)?;
    let answer = read_point(map, &bytes[..written], reading, lines);
    Ok(Back { written, answer })
}

// Stretches have a function of their own: one for both would need a trait with the two calls and their promises, which is longer than this.
// Writes two points on one map, and where their bytes are the same, reads them. `None` says that the bytes differ.
pub fn write_two_and_read(
    map: &[u8],
    first: Given,
    second: Given,
    writing: &mut [u32],
    bytes: &mut [u8],
    others: &mut [u8],
    reading: &mut [u32],
    lines: &mut [u32],
) -> Result<Option<Back<usize, PointReadAnswer>>, Which<Refusal>>
    ensures { PairTells map.now (as_given first) (as_given second)
        writing.old writing.new bytes.old bytes.new others.old others.new
        reading.old reading.new lines.old lines.new result }
{
    let one = write_given(map, first, writing, bytes).map_err(Which::First)?;
    let other = write_given(map, second, writing, others).map_err(Which::Second)?;
    let same = &bytes[..one];
    if same != &others[..other] {
        return Ok(None);
    }
    let answer = read_point(map, same, reading, lines);
    Ok(Some(Back {
        written: one,
        answer,
    }))
}
