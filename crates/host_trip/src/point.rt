// The claim of W5 (paper 02) about the two functions with points that a C program calls: what `openlr_write_point` accepts `openlr_read_point` hands back.
ghost use Rattle.std.specs.Prelude.{MatchResult};
ghost use Rattle.point_trip.specs.Told.{as_given};
ghost use Rattle.host_trip.specs.PointTold.{WrotePoint, NoPoint, PointTripTells, PointPairTells};

use openlr::point::{Point, openlr_read_point, openlr_write_point};
use point_trip::Given;
use round_trip::{Back, Which};

// Writes a point as it is given: the count of its bytes, or the refusal's number.
fn write_given(map: &[u8], given: Given, bytes: &mut [u8]) -> Result<u32, u32>
    ensures { MatchResult result
        (λ count. WrotePoint map.now (as_given given) bytes.old bytes.new count)
        (λ why. NoPoint map.now (as_given given) bytes.old bytes.new why) }
{
    let written = openlr_write_point(
        map,
        given.line,
        given.offset,
        given.orientation,
        given.side,
        bytes,
    );
    if written.refusal != 0 {
        return Err(written.refusal);
    }
    Ok(written.bytes)
}

// Writes a point and reads what was written. What the buffers hold before is arbitrary.
pub fn write_point_and_read(
    map: &[u8],
    given: Given,
    bytes: &mut [u8],
    lines: &mut [u8],
) -> Result<Back<u32, Point>, u32>
    ensures { PointTripTells map.now (as_given given) bytes.old bytes.new lines.old lines.new result }
{
    let written = write_given(map, given, bytes)?;
    let answer = openlr_read_point(map, &bytes[..written as usize], lines);
    Ok(Back { written, answer })
}

// Writes two points on one map, and where their bytes are the same, reads them. `None` says that the bytes differ.
pub fn write_two_points_and_read(
    map: &[u8],
    first: Given,
    second: Given,
    bytes: &mut [u8],
    others: &mut [u8],
    lines: &mut [u8],
) -> Result<Option<Back<u32, Point>>, Which<u32>>
    ensures { PointPairTells map.now (as_given first) (as_given second) bytes.old bytes.new
        others.old others.new lines.old lines.new result }
{
    let one = write_given(map, first, bytes).map_err(Which::First)?;
    let other = write_given(map, second, others).map_err(Which::Second)?;
    let same = &bytes[..one as usize];
    if same != &others[..other as usize] {
        return Ok(None);
    }
    let answer = openlr_read_point(map, same, lines);
    Ok(Some(Back {
        written: one,
        answer,
    }))
}
