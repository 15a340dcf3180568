// Functions of the inner crates as C functions, for the benchmark alone. They are no entry points of the product.
#![tactic(auto)]

ghost use Rattle.std.specs.Prelude.{◌≡◌, length};
ghost use Rattle.model.specs.Map.{Map};
ghost use Rattle.search_cells.specs.Area.{Set};
ghost use Rattle.model.specs.Stretch.{stretch_of};
ghost use Rattle.model.specs.PointAlong.{point_given};
ghost use Rattle.measured.specs.Offsets.{byte_number, SpanNumber};
ghost use Rattle.measured.specs.Refusal.{refusal_number, map_refusal, ReadNumber, WriteNumber, PointReadNumber, PointWriteNumber};

use buffers::wide;
use depot_map::read_map;
use fields::offset::{offset_byte, span_of};
use model::limits::{GREATEST_LEG_LENGTH, WORK_LENGTH};
use model::{Refusal, number_of};
use opening::open_map;
use point_reader::read_point;
use point_writer::write_point;
use reader::read;
use search::search;
use way_lengths::Terminus;
use writer::write;

// The number of the refusal, or 0 where there is none.
fn refusal_number<T: Copy>(answer: Result<T, Refusal>) -> u32
    ensures { result ≡ refusal_number answer }
{
    match answer {
        Ok(_) => 0,
        Err(why) => number_of(why),
    }
}

// Reads a map into the work area: the number of the refusal, or 0.
#[unsafe(no_mangle)]
pub extern "C" fn measured_read_map(map: &[u8], work: &mut [u32]) -> u32
    ensures { result ≡ map_refusal (length work.old) map.now }
{
    if work.len() < WORK_LENGTH {
        return 1;
    }
    refusal_number(read_map(map, work))
}

// Searches `times` times back from the same line, on a map that is ready in the work area.
fn search_again(work: &mut [u32], lines: usize, first: u32, class: u32, limit: u32, times: u32)
    requires { (m : Map) × Set m lines work.old }
{
    if lines <= wide(first) || GREATEST_LEG_LENGTH < limit {
        return;
    }
    for _ in 0..times {
        search(work, lines, Terminus::Line(wide(first)), class, limit);
    }
}

// Opens a map and searches `times` times: the number of the refusal, or 0. The time of a search is the difference that `times` makes.
#[unsafe(no_mangle)]
pub extern "C" fn measured_search(
    map: &[u8],
    work: &mut [u32],
    first: u32,
    class: u32,
    limit: u32,
    times: u32,
) -> u32
    ensures { result ≡ map_refusal (length work.old) map.now }
{
    if work.len() < WORK_LENGTH {
        return 1;
    }
    match open_map(map, work) {
        Ok(opened) => {
            search_again(work, opened.lines, first, class, limit, times);
            0
        }
        Err(why) => number_of(why),
    }
}

// Reads a reference: the number of the refusal, or 0.
#[unsafe(no_mangle)]
pub extern "C" fn measured_read(
    map: &[u8],
    reference: &[u8],
    work: &mut [u32],
    lines: &mut [u32],
) -> u32
    ensures { ReadNumber map.now reference.now work.old lines.old result
        work.new lines.new }
{
    refusal_number(read(map, reference, work, lines))
}

// Writes a stretch: the count of bytes, or the number of the refusal. The two are not told apart: 23 and 24 may be either.
#[unsafe(no_mangle)]
pub extern "C" fn measured_write(
    map: &[u8],
    stretch: &[u32],
    pos: u32,
    neg: u32,
    tests: u32,
    work: &mut [u32],
    bytes: &mut [u8],
) -> usize
    ensures { WriteNumber map.now (stretch_of stretch.now pos neg) tests work.old bytes.old result
        work.new bytes.new }
{
    match write(map, stretch, pos, neg, tests, work, bytes) {
        Ok(written) => written.bytes,
        Err(why) => number_of(why) as usize,
    }
}

// Reads a point along a line: the number of the refusal, or 0.
#[unsafe(no_mangle)]
pub extern "C" fn measured_read_point(
    map: &[u8],
    reference: &[u8],
    work: &mut [u32],
    lines: &mut [u32],
) -> u32
    ensures { PointReadNumber map.now reference.now work.old lines.old result
        work.new lines.new }
{
    refusal_number(read_point(map, reference, work, lines))
}

// Writes a point along a line: the count of bytes, 16 or 17, or the number of the refusal, which is neither.
#[unsafe(no_mangle)]
pub extern "C" fn measured_write_point(
    map: &[u8],
    line: u32,
    offset: u32,
    orientation: u32,
    side: u32,
    work: &mut [u32],
    bytes: &mut [u8],
) -> usize
    ensures { PointWriteNumber map.now (point_given line offset orientation side) work.old bytes.old result
        work.new bytes.new }
{
    match write_point(map, line, offset, orientation, side, work, bytes) {
        Ok(count) => count,
        Err(why) => number_of(why) as usize,
    }
}

// The byte of an offset on a leg, or 256 where it does not lie on it.
#[tactic(auto, unfolding(crate::specs::Offsets::byte_number))]
#[unsafe(no_mangle)]
pub extern "C" fn measured_offset_byte(leg: u32, offset: u32) -> u32
    ensures { result ≡ byte_number leg offset }
{
    if leg <= offset {
        return 256;
    }
    offset_byte(leg, offset)
}

// The sum of the least and the greatest offset that give a byte, or 0 where none does.
#[unsafe(no_mangle)]
pub extern "C" fn measured_span(leg: u32, byte: u8) -> u64
    ensures { SpanNumber leg byte result }
{
    match span_of(leg, byte as u32) {
        Some(span) => span.least as u64 + span.greatest as u64,
        None => 0,
    }
}
