// Reads and writes the points of cases.bin, each on its own map, and prints a row for each: the answer, a sum over the lines or bytes handed back, what the
// call left of the work area, and whether the rest of the buffer is as it was. Where bytes were written, the row goes on with what the reader of points answers
// to exactly those. What it prints is held to what the unrelated implementation says (oracle/pack.py).
#![tactic(auto)]

use answer_text::put;
use cases::{Part, word_at};
use console::hand_over;
use marks::{bytes_kept, fill, fill_bytes, put_point_written, put_rest, put_work};
use model::PointWriteAnswer;
use point_reader::read_point;
use point_writer::write_point;
use reading_rows::{put_point, show_point};

// More bytes than a part of a row has: 6 for a word, 100 for an answer, 25 for a sum, 13 for each of the last two.
const ROW: usize = 192;

// The length of the byte buffer, some bytes more than a point has.
const BYTES: usize = 40;

// Fills the buffers, reads a point into them and prints the row.
fn read_case(rt: &impl Print, map: &[u8], reference: &[u8], work: &mut [u32], lines: &mut [u32]) {
    fill(work);
    fill(lines);
    let answer = read_point(map, reference, work, lines);
    show_point(rt, answer, work, lines);
}

// Prints a row's second part: what the reader answers to bytes that the writer wrote.
fn show_read(rt: &impl Print, map: &[u8], reference: &[u8], work: &mut [u32], lines: &mut [u32]) {
    let mut row = [0; ROW];
    let answer = read_point(map, reference, work, lines);
    let start = put(b" read ", &mut row, 0);
    let end = put_point(answer, lines, &mut row, start);
    hand_over(rt, &row[..end]);
}

// Prints a row's first part.
fn show_written(rt: &impl Print, answer: PointWriteAnswer, work: &[u32], bytes: &[u8]) {
    let mut row = [0; ROW];
    let count = answer.unwrap_or(0).min(bytes.len());
    let written = put_point_written(answer, bytes, &mut row);
    let state = put_work(work, &mut row, written);
    let end = put_rest(bytes_kept(bytes, count), &mut row, state);
    hand_over(rt, &row[..end]);
}

// Where the writer wrote bytes: reads exactly those.
fn read_back(
    rt: &impl Print,
    map: &[u8],
    answer: PointWriteAnswer,
    bytes: &[u8],
    work: &mut [u32],
    lines: &mut [u32],
) {
    let Ok(count) = answer else {
        return;
    };
    let written = count.min(bytes.len());
    show_read(rt, map, &bytes[..written], work, lines);
}

// Writes the point that the numbers of the case say.
fn write_given(map: &[u8], words: &[u8], work: &mut [u32], bytes: &mut [u8]) -> PointWriteAnswer {
    write_point(
        map,
        word_at(words, 12),
        word_at(words, 16),
        word_at(words, 20),
        word_at(words, 24),
        work,
        bytes,
    )
}

// Fills the buffers, writes a point into them and prints the row.
fn write_case(
    rt: &impl Print,
    map: &[u8],
    words: &[u8],
    work: &mut [u32],
    bytes: &mut [u8],
    lines: &mut [u32],
) {
    fill(work);
    fill_bytes(bytes);
    let answer = write_given(map, words, work, bytes);
    show_written(rt, answer, work, bytes);
    read_back(rt, map, answer, bytes, work, lines);
    hand_over(rt, b"\n");
}

// Writes with a work area and a byte buffer of the lengths that the numbers of the case say.
fn run_write(rt: &impl Print, map: &[u8], words: &[u8], work: &mut [u32], lines: &mut [u32]) {
    let mut buffer = [0; BYTES];
    let room = (word_at(words, 8) as usize).min(BYTES);
    write_case(rt, map, words, work, &mut buffer[..room], lines);
}

// Reads with a line buffer of the length that the numbers of the case say.
fn run_read(
    rt: &impl Print,
    map: &[u8],
    reference: &[u8],
    words: &[u8],
    work: &mut [u32],
    lines: &mut [u32],
) {
    let room = (word_at(words, 8) as usize).min(lines.len());
    read_case(rt, map, reference, work, &mut lines[..room]);
}

// A case on its map: reads, or writes where its first number is 1, with a work area of the length that its numbers say.
fn run_case(
    rt: &impl Print,
    map: &[u8],
    reference: &[u8],
    words: &[u8],
    work: &mut [u32],
    lines: &mut [u32],
) {
    let length = (word_at(words, 4) as usize).min(work.len());
    if word_at(words, 0) == 1 {
        run_write(rt, map, words, &mut work[..length], lines);
        return;
    }
    run_read(rt, map, reference, words, &mut work[..length], lines);
}

// Each case has three parts: a map, a reference, and eight numbers of four bytes each. These are 1 where the case writes, the length of the work area, the
// room of the line or byte buffer, the line, the offset, the orientation and the side that are written, and 1 where the map is that of the case before.
fn run(rt: &impl Print, bytes: &[u8], work: &mut [u32], lines: &mut [u32]) {
    let mut at: usize = 0;
    let mut map = Part { start: 0, end: 0 };
    while let Some(given) = cases::part_at(bytes, at) {
        let Some(reference) = cases::part_at(bytes, given.end) else {
            return;
        };
        let Some(words) = cases::part_at(bytes, reference.end) else {
            return;
        };
        at = words.end;
        if word_at(&bytes[words.start..words.end], 28) == 0 {
            map = given;
        }
        run_case(
            rt,
            &bytes[map.start..map.end],
            &bytes[reference.start..reference.end],
            &bytes[words.start..words.end],
            work,
            lines,
        );
    }
}

fn main(rt: HostRuntime) {
    let mut bytes = cases::megabyte();
    let mut work = [0; 14_340];
    let mut lines = [0; 1_100];
    let n = console::load(&rt, b"cases.bin", &mut bytes);
    run(&rt, &bytes[..n], &mut work, &mut lines);
}
