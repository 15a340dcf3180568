// The writer of points along a line (paper 02, W5): `write_point`, and its parts in the order in which they are asked.
#![tactic(auto)]

ghost use Rattle.std.specs.Prelude.{◌≡◌, ◌≤◌, length};
ghost use Rattle.model.specs.Map.{Map, decode};
ghost use Rattle.model.specs.Work.{work_length};
ghost use Rattle.model.specs.PointAlong.{point_given, PointWriteOn, passes, check_point, PointWriteChecked, PointWriteMap, PointWriteAnswered, PointWriteCall};
ghost use Rattle.work_area.specs.Area.{Held};
ghost use Rattle.search_cells.specs.Area.{Set};
ghost use Rattle.point_writer.specs.PointChecks.{ChecksPoint, PutsPoint};

use buffers::{copy, wide};
use model::limits::GREATEST_MARK;
use model::{PointWriteAnswer, Refusal};
use opening::open_map;
use point_bytes::{Marks, put_marks};
use stretches::lines::LineList;
use work_area::step::in_work_area;
use work_area::{LENGTH, field};
use writer::on_part;

// Asks a point as it is given: its line, its offset, and its marks. It may be refused with 7, 9 or 25.
fn check(work: &[u32], lines: usize, line: u32, offset: u32, marks: Marks) -> Result<(), Refusal>
    requires { (m : Map) × Held work.now lines m }
    ensures { (m : Map) → Held work.now lines m → ChecksPoint m (point_given line offset marks.orientation marks.side) result }
{
    let number = wide(line);
    if lines <= number {
        return Err(Refusal::StretchLines);
    }
    if field(work, number, LENGTH) <= offset {
        return Err(Refusal::StretchOffsets);
    }
    if GREATEST_MARK < marks.orientation || GREATEST_MARK < marks.side {
        return Err(Refusal::PointMarks);
    }
    Ok(())
}

// Puts bytes first in the buffer, if it has room for them: their count.
fn put_bytes(from: &[u8], bytes: &mut [u8]) -> PointWriteAnswer
    ensures { PutsPoint from.now bytes.old bytes.new result }
{
    if bytes.len() < from.len() {
        return Err(Refusal::BytesShort);
    }
    copy(from, bytes);
    Ok(from.len())
}

// The answer for a point that is not refused as it is given. Its line alone is a stretch of one leg, which one test settles, and
// whose reference gets the marks.
fn on_line(
    work: &mut [u32],
    lines: usize,
    line: u32,
    offset: u32,
    marks: Marks,
    bytes: &mut [u8],
) -> PointWriteAnswer
    requires { (m : Map) × Set m lines work.old × (check_point m (point_given line offset marks.orientation marks.side) ≡ passes) }
    ensures { (m : Map) → Set m lines work.old → check_point m (point_given line offset marks.orientation marks.side) ≡ passes
        → PointWriteAnswered (PointWriteOn m (point_given line offset marks.orientation marks.side) (length bytes.old))
        bytes.old bytes.new result }
{
    let mut reference = [0u8; Marks::LONGEST];
    let alone = LineList {
        numbers: &[line],
        lines,
    };
    let written = on_part(work, alone, offset, 0, 1, &mut reference)?;
    put_marks(&mut reference, marks);
    put_bytes(&reference[..written.bytes], bytes)
}

// The answer on a map that is ready in the work area.
fn on_map(
    work: &mut [u32],
    lines: usize,
    line: u32,
    offset: u32,
    marks: Marks,
    bytes: &mut [u8],
) -> PointWriteAnswer
    requires { (m : Map) × Set m lines work.old }
    ensures { (m : Map) → Set m lines work.old
        → PointWriteAnswered (PointWriteChecked m (point_given line offset marks.orientation marks.side)
        (check_point m (point_given line offset marks.orientation marks.side)) (length bytes.old))
        bytes.old bytes.new result }
{
    check(work, lines, line, offset, marks)?;
    on_line(work, lines, line, offset, marks, bytes)
}

// Writes a point along a line on a map: `offset` centimetres from where the line starts, with its orientation and side of road. An answer that it is
// written has the count of bytes, which stand first in `bytes`. The work area needs 14,336 numbers. They are 0 afterwards.
pub fn write_point(
    map: &[u8],
    line: u32,
    offset: u32,
    orientation: u32,
    side: u32,
    work: &mut [u32],
    bytes: &mut [u8],
) -> PointWriteAnswer
    ensures { PointWriteCall map.now (point_given line offset orientation side) work.old bytes.old result
        work.new bytes.new }
{
    let marks = Marks { orientation, side };
    in_work_area(
        work,
        bytes,
        |area, out|
            requires { length area.old ≡ work_length }
            ensures { PointWriteAnswered (PointWriteMap (decode map.entry.now) (point_given line offset marks.orientation marks.side) (length out.old))
                out.old out.new result }
        {
            let opened = open_map(map, area)?;
            on_map(area, opened.lines, line, offset, marks, out)
        },
    )
}
