// Marks that a test program puts into the buffers that it lends, what a call left of them, and what a writer's call handed back.
#![tactic(auto)]

ghost use Rattle.std.specs.Prelude.{◌≡◌, length};
ghost use Rattle.buffers.specs.Decides.{Decides};
ghost use Rattle.answer_text.specs.Put.{Put};
ghost use Rattle.marks.specs.Marks.{mark_of, byte_mark_of, Marked, Cleared};
ghost use Rattle.marks.specs.Shown.{Shown, WorkText, rest_text, sum_text, written_text, point_written_text};

use answer_text::{put, put_number};
use cases::sum_of_bytes;
use model::limits::WORK_LENGTH;
use model::{PointWriteAnswer, WriteAnswer, number_of};

// What stands at place `i` of a buffer before a call. It is no line's number and not 0, and numbers next to each other differ.
fn mark(i: usize) -> u32
    ensures { result ≡ mark_of i }
{
    3_000_000_000 + (i % 1_000_000) as u32
}

// The same for a buffer of bytes. Functions for marks of either type would be no plainer: each contract would have to name the mark's number.
fn byte_mark(i: usize) -> u8
    ensures { result ≡ byte_mark_of i }
{
    (i % 251) as u8
}

pub fn fill(buffer: &mut [u32])
    ensures { Marked mark_of buffer.new 0 (length buffer.new) }
{
    for (i, x) in buffer.iter_mut().enumerate() {
        *x = mark(i);
    }
}

pub fn fill_bytes(buffer: &mut [u8])
    ensures { Marked byte_mark_of buffer.new 0 (length buffer.new) }
{
    for (i, x) in buffer.iter_mut().enumerate() {
        *x = byte_mark(i);
    }
}

// Whether a buffer is as `fill` left it from place `from` on.
pub fn is_kept(buffer: &[u32], from: usize) -> bool
    ensures { Decides (Marked mark_of buffer.now from (length buffer.now)) result }
{
    for i in from..buffer.len() {
        if buffer[i] != mark(i) {
            return false;
        }
    }
    true
}

// Whether a buffer is as `fill_bytes` left it from place `from` on.
pub fn bytes_kept(buffer: &[u8], from: usize) -> bool
    ensures { Decides (Marked byte_mark_of buffer.now from (length buffer.now)) result }
{
    for i in from..buffer.len() {
        if buffer[i] != byte_mark(i) {
            return false;
        }
    }
    true
}

// Whether the numbers that a call uses are 0 and the rest is as `fill` left it.
pub fn is_cleared(work: &[u32]) -> bool
    ensures { Decides (Cleared work.now) result }
{
    if work.len() < WORK_LENGTH {
        return false;
    }
    for i in 0..WORK_LENGTH {
        if work[i] != 0 {
            return false;
        }
    }
    is_kept(work, WORK_LENGTH)
}

// Puts what the work area tells behind a call: where the text ends.
pub fn put_work(work: &[u32], buffer: &mut [u8], at: usize) -> usize
    ensures { Shown (WorkText work.now) at buffer.old buffer.new result }
{
    if is_kept(work, 0) {
        return put(b" work kept", buffer, at);
    }
    if is_cleared(work) {
        return put(b" work cleared", buffer, at);
    }
    put(b" work changed", buffer, at)
}

// Puts whether the rest of a buffer, behind what a call hands back in it, is as it was.
#[tactic(auto, unfolding(crate::specs::Shown::rest_text))]
pub fn put_rest(kept: bool, buffer: &mut [u8], at: usize) -> usize
    ensures { Put at (rest_text kept) buffer.old buffer.new result }
{
    if kept {
        return put(b" rest kept", buffer, at);
    }
    put(b" rest changed", buffer, at)
}

// Puts a sum over the bytes that were handed back; a count beyond the buffer shows by itself.
fn put_sum(count: usize, bytes: &[u8], row: &mut [u8], at: usize) -> usize
    ensures { Put at (sum_text count bytes.now) row.old row.new result }
{
    let handed_back = count.min(bytes.len());
    put_number(b" sum ", sum_of_bytes(bytes, handed_back), row, at)
}

// Puts a writer's answer, the leg tests made and the excess with it, and where it hands back bytes, a sum over them.
pub fn put_written(answer: WriteAnswer, bytes: &[u8], row: &mut [u8]) -> usize
    ensures { Put 0 (written_text answer bytes.now) row.old row.new result }
{
    match answer {
        Ok(written) => {
            let counted = put_number(b"bytes ", written.bytes as u64, row, 0);
            let tested = put_number(b" tests ", written.tests as u64, row, counted);
            let end = put_number(b" excess ", written.excess as u64, row, tested);
            put_sum(written.bytes, bytes, row, end)
        }
        Err(why) => put_number(b"refused ", number_of(why) as u64, row, 0),
    }
}

// The same for the writer of points.
pub fn put_point_written(answer: PointWriteAnswer, bytes: &[u8], row: &mut [u8]) -> usize
    ensures { Put 0 (point_written_text answer bytes.now) row.old row.new result }
{
    match answer {
        Ok(count) => {
            let end = put_number(b"bytes ", count as u64, row, 0);
            put_sum(count, bytes, row, end)
        }
        Err(why) => put_number(b"refused ", number_of(why) as u64, row, 0),
    }
}
