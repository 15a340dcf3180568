// The reader of points along a line (paper 02, W5): `read_point`, and its parts in the order in which they are asked; `read_point_of_message` for those out of a
// message (W10).
#![tactic(auto)]

ghost use Rattle.std.specs.Prelude.{◌≡◌, ◌≤◌, length};
ghost use Rattle.model.specs.Map.{Map, decode};
ghost use Rattle.model.specs.PointAlong.{parsed, point_along_at, parse_point, PointReadOutcome, PointReadOn, PointReadParsed, PointReadMap, PointReadAnswered, PointReadCall};
ghost use Rattle.model.specs.Work.{work_length};
ghost use Rattle.model.specs.Opening.{OnMap};
ghost use Rattle.model.specs.Front.{same_map};
ghost use Rattle.model.specs.OfMessage.{OnFront, PointReadOfMessageCall};
ghost use Rattle.search_cells.specs.Area.{Set};

use front::same_map;
use model::{PointReadAnswer, ReadPoint, Refusal};
use opening::{Opened, open_map};
use point_bytes::{Marks, form_of, marks_in, put_line};
use reader::on_points;
use references::reference::Reference;
use work_area::step::in_work_area;

// The answer for bytes that are a point along line: what is answered to the line reference with the same points, and the marks.
fn on_point(bytes: &[u8], work: &mut [u32], opened: Opened, out: &mut [u32]) -> PointReadAnswer
    requires bytes_value { parse_point bytes.now ≡ parsed (point_along_at bytes.now) }
    requires set { (m : Map) × Set m opened.lines work.old × (length m.nodes ≡ opened.nodes) }
    ensures { (m : Map) → Set m opened.lines work.old → length m.nodes ≡ opened.nodes
        → PointReadAnswered (PointReadOn m (point_along_at bytes.now) (length out.old)) out.old out.new result }
{
    let mut copy: [u8; 17] = [0; Marks::LONGEST];
    put_line(bytes, &mut copy);
    let line = Reference {
        bytes: &copy[..bytes.len()],
        points: 1,
    };
    let found = on_points(line, work, opened, out)?;
    let marks = marks_in(bytes);
    Ok(ReadPoint {
        count: found.count,
        offset: found.positive,
        orientation: marks.orientation,
        side: marks.side,
    })
}

// The answer on a map that is ready in the work area.
fn on_map(reference: &[u8], work: &mut [u32], opened: Opened, out: &mut [u32]) -> PointReadAnswer
    requires { (m : Map) × Set m opened.lines work.old × (length m.nodes ≡ opened.nodes) }
    ensures { (m : Map) → Set m opened.lines work.old → length m.nodes ≡ opened.nodes
        → PointReadAnswered (PointReadParsed m (parse_point reference.now) (length out.old)) out.old out.new result }
{
    form_of(reference)?;
    on_point(reference, work, opened, out)
}

// Reads a point along a line on a map. An answer that it is read has the count of lines, which stand first in `lines`, the span of the offset, the
// orientation and the side of road. The work area needs 14,336 numbers. They are 0 afterwards.
pub fn read_point(
    map: &[u8],
    reference: &[u8],
    work: &mut [u32],
    lines: &mut [u32],
) -> PointReadAnswer
    ensures { PointReadCall map.now reference.now work.old lines.old result work.new lines.new }
{
    in_work_area(
        work,
        lines,
        |area, out|
            requires { length area.old ≡ work_length }
            ensures { PointReadAnswered (PointReadMap (decode map.entry.now) reference.entry.now (length out.old))
                out.old out.new result }
        {
            let opened = open_map(map, area)?;
            on_map(reference, area, opened, out)
        },
    )
}

// The answer on a map that is ready in the work area, for a point out of a message: whether the message is of that map is asked first. Lines have a function
// of their own for it: one for both would take what is asked on the map, and what an outcome is, as parameters.
fn on_front(
    map: &[u8],
    message: &[u8],
    reference: &[u8],
    work: &mut [u32],
    opened: Opened,
    out: &mut [u32],
) -> PointReadAnswer
    requires { (m : Map) × Set m opened.lines work.old × (length m.nodes ≡ opened.nodes) }
    ensures { (m : Map) → Set m opened.lines work.old → length m.nodes ≡ opened.nodes
        → PointReadAnswered (OnFront PointReadOutcome.refused (PointReadParsed m (parse_point reference.now) (length out.old))
        (same_map map.now message.now)) out.old out.new result }
{
    if !same_map(map, message) {
        return Err(Refusal::OtherMap);
    }
    on_map(reference, work, opened, out)
}

// Reads a point along a line out of a message on a map: as `read_point`, once the message's front is that of the map. Nothing else is looked at in the message.
pub fn read_point_of_message(
    map: &[u8],
    message: &[u8],
    reference: &[u8],
    work: &mut [u32],
    lines: &mut [u32],
) -> PointReadAnswer
    ensures { PointReadOfMessageCall map.now message.now reference.now work.old lines.old result
        work.new lines.new }
{
    in_work_area(
        work,
        lines,
        |area, out|
            requires { length area.old ≡ work_length }
            ensures { PointReadAnswered (OnMap PointReadOutcome.refused (λ m. OnFront PointReadOutcome.refused
                (PointReadParsed m (parse_point reference.entry.now) (length out.old)) (same_map map.entry.now message.entry.now))
                (decode map.entry.now)) out.old out.new result }
        {
            let opened = open_map(map, area)?;
            on_front(map, message, reference, area, opened, out)
        },
    )
}
