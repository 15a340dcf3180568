// The functions for points along a line that a C program calls (paper 02, W5; out of a message: W10). include/openlr.h has them for C.
ghost use Rattle.std.specs.Prelude.{◌≡◌, ◌*◌, ◌≤◌, ℕ, List, length, IfOk};
ghost use Rattle.model.specs.Refusal.{refusal_of};
ghost use Rattle.model.specs.Work.{work_length};
ghost use Rattle.model.specs.PointAlong.{PointReadOutcome, PointReads, PointReadAnswers, PointReadAnswered, point_lines_after, PointWriteOutcome, PointWrites, PointWriteAnswers, PointWriteAnswered, point_given};
ghost use Rattle.model.specs.PointAlong.{longest_point};
ghost use Rattle.model.specs.Host.{greatest_host_lines, host_point, host_point_lines_after, HostPointReadCall, host_point_written, HostPointWriteCall};
ghost use Rattle.model.specs.OfMessage.{PointReadsOfMessage, HostPointReadOfMessageCall};
ghost use Rattle.openlr.specs.Host.{as_point, as_point_written};

use buffers::words::{WORD_BYTES, put_words};
use model::limits::{GREATEST_HOST_LINES, WORK_LENGTH};
use model::{PointReadAnswer, PointWriteAnswer, Refusal, Row, number_of};

// What the host gets from the reader of points; `struct openlr_point` in C. 0 where a number says nothing.
#[repr(C)]
#[derive(Clone, Copy)]
pub struct Point {
    pub refusal: u32,
    pub place: u32,
    pub lines: u32,
    pub least: u32,
    pub greatest: u32,
    pub orientation: u32,
    pub side: u32,
}

// What the host gets from the writer of points; `struct openlr_point_written` in C.
#[repr(C)]
#[derive(Clone, Copy)]
pub struct PointWritten {
    pub refusal: u32,
    pub bytes: u32,
}

// What the host gets where the reader of points refuses.
fn no_point(why: Refusal) -> Point
    ensures { as_point result ≡ host_point (PointReadOutcome.refused (refusal_of why)) }
{
    let row = Row::from(why);
    Point {
        refusal: row.0,
        place: row.1,
        lines: 0,
        least: 0,
        greatest: 0,
        orientation: 0,
        side: 0,
    }
}

// Reads a point with a work area of its own.
fn read_point_into(map: &[u8], reference: &[u8], numbers: &mut [u32]) -> PointReadAnswer
    ensures { PointReadAnswered (PointReads map.now reference.now work_length (length numbers.old))
        numbers.old numbers.new result }
{
    let mut work = [0u32; WORK_LENGTH];
    point_reader::read_point(map, reference, &mut work, numbers)
}

// What the host gets for the answer of the reader of points. The lines that were read stand first in `numbers`, and go into `lines`, four bytes each, low byte
// first.
fn handed(answer: PointReadAnswer, numbers: &[u32], lines: &mut [u8]) -> Point
    requires { IfOk answer (λ found. (found.count ≤ length numbers.now) × (found.count * 4 ≤ length lines.old)
        × (found.count ≤ greatest_host_lines)) }
    ensures { (o : PointReadOutcome) (before : List ℕ) → PointReadAnswers answer o → numbers.now ≡ point_lines_after o before
        → (as_point result ≡ host_point o) × (lines.new ≡ host_point_lines_after o lines.old) }
{
    match answer {
        Ok(found) => {
            put_words(&numbers[..found.count], lines);
            Point {
                refusal: 0,
                place: 0,
                lines: found.count as u32,
                least: found.offset.least,
                greatest: found.offset.greatest,
                orientation: found.orientation,
                side: found.side,
            }
        }
        Err(why) => no_point(why),
    }
}

// Reads a point with line numbers in `numbers`.
fn read_point_lines(map: &[u8], reference: &[u8], numbers: &mut [u32], lines: &mut [u8]) -> Point
    requires { length numbers.old ≡ greatest_host_lines }
    ensures { HostPointReadCall map.now reference.now lines.old (as_point result) lines.new }
{
    let room = (lines.len() / WORD_BYTES).min(numbers.len());
    let answer = read_point_into(map, reference, &mut numbers[..room]);
    handed(answer, &numbers[..room], lines)
}

// Reads a point along a line on a map.
#[unsafe(no_mangle)]
pub extern "C" fn openlr_read_point(map: &[u8], reference: &[u8], lines: &mut [u8]) -> Point
    ensures { HostPointReadCall map.now reference.now lines.old (as_point result) lines.new }
{
    let mut numbers = [0u32; GREATEST_HOST_LINES];
    read_point_lines(map, reference, &mut numbers, lines)
}

// Reads a point out of a message with a work area of its own.
fn read_point_of_message_into(
    map: &[u8],
    message: &[u8],
    reference: &[u8],
    numbers: &mut [u32],
) -> PointReadAnswer
    ensures { PointReadAnswered (PointReadsOfMessage map.now message.now reference.now work_length (length numbers.old))
        numbers.old numbers.new result }
{
    let mut work = [0u32; WORK_LENGTH];
    point_reader::read_point_of_message(map, message, reference, &mut work, numbers)
}

// Reads a point out of a message with line numbers in `numbers`.
fn read_point_lines_of_message(
    map: &[u8],
    message: &[u8],
    reference: &[u8],
    numbers: &mut [u32],
    lines: &mut [u8],
) -> Point
    requires { length numbers.old ≡ greatest_host_lines }
    ensures { HostPointReadOfMessageCall map.now message.now reference.now lines.old (as_point result) lines.new }
{
    let room = (lines.len() / WORD_BYTES).min(numbers.len());
    let answer = read_point_of_message_into(map, message, reference, &mut numbers[..room]);
    handed(answer, &numbers[..room], lines)
}

// Reads a point along a line out of a message on a map.
#[unsafe(no_mangle)]
pub extern "C" fn openlr_read_point_of_message(
    map: &[u8],
    message: &[u8],
    reference: &[u8],
    lines: &mut [u8],
) -> Point
    ensures { HostPointReadOfMessageCall map.now message.now reference.now lines.old (as_point result) lines.new }
{
    let mut numbers = [0u32; GREATEST_HOST_LINES];
    read_point_lines_of_message(map, message, reference, &mut numbers, lines)
}

// What the host gets for the answer of the writer of points.
fn told(answer: PointWriteAnswer) -> PointWritten
    requires { IfOk answer (λ count. count ≤ longest_point) }
    ensures { (o : PointWriteOutcome) → PointWriteAnswers answer o → as_point_written result ≡ host_point_written o }
{
    match answer {
        Ok(count) => PointWritten {
            refusal: 0,
            bytes: count as u32,
        },
        Err(why) => PointWritten {
            refusal: number_of(why),
            bytes: 0,
        },
    }
}

// Writes a point with a work area of its own.
fn write_point_from(
    map: &[u8],
    line: u32,
    offset: u32,
    orientation: u32,
    side: u32,
    bytes: &mut [u8],
) -> PointWriteAnswer
    ensures { PointWriteAnswered (PointWrites map.now (point_given line offset orientation side) work_length (length bytes.old))
        bytes.old bytes.new result }
{
    let mut work = [0u32; WORK_LENGTH];
    point_writer::write_point(map, line, offset, orientation, side, &mut work, bytes)
}

// Writes a reference for a point along a line of a map.
#[unsafe(no_mangle)]
pub extern "C" fn openlr_write_point(
    map: &[u8],
    line: u32,
    offset: u32,
    orientation: u32,
    side: u32,
    bytes: &mut [u8],
) -> PointWritten
    ensures { HostPointWriteCall map.now (point_given line offset orientation side) bytes.old (as_point_written result) bytes.new }
{
    told(write_point_from(map, line, offset, orientation, side, bytes))
}
