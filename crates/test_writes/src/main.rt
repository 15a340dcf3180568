// Writes the stretches of cases.bin, each on its own map, and prints a row for each: the answer with the leg tests made and the excess, a sum over the bytes handed back, what the call left of
// the work area, and whether the rest of the byte buffer is as it was. Where bytes were written, the row goes on with what the reader answers to exactly
// those. What it prints is held to what the unrelated implementation says (oracle/pack.py).
#![tactic(auto)]

ghost use Rattle.std.specs.Counts.{IsPrefixLen};

use answer_text::{put, put_head, put_number};
use buffers::words::take_words;
use cases::{Part, sum_of, word_at};
use console::hand_over;
use marks::{bytes_kept, fill, fill_bytes, put_rest, put_work, put_written};
use model::{ReadAnswer, WriteAnswer};
use reader::read;
use writer::write;

// More bytes than a part of a row has: 6 for a word, 118 for an answer's first row, 25 for a sum, 13 for each of the last two.
const ROW: usize = 192;

// Prints a row's first part.
fn show_call(rt: &impl Print, answer: WriteAnswer, work: &[u32], bytes: &[u8]) {
    let mut row = [0; ROW];
    let count = answer.map_or(0, |made| made.bytes).min(bytes.len());
    let written = put_written(answer, bytes, &mut row);
    let state = put_work(work, &mut row, written);
    let end = put_rest(bytes_kept(bytes, count), &mut row, state);
    hand_over(rt, &row[..end]);
}

// Puts what the reader answers to bytes that the writer wrote and, where it hands back lines, a sum over them.
fn put_read(answer: ReadAnswer, lines: &[u32], row: &mut [u8]) -> usize
    ensures { IsPrefixLen result row.new }
{
    let start = put(b" read ", row, 0);
    let end = put_head(answer, row, start);
    let Ok(found) = answer else {
        return end;
    };
    let handed_back = found.count.min(lines.len());
    put_number(b" sum ", sum_of(lines, 0, handed_back, 0), row, end)
}

// Prints a row's second part: what the reader answers to bytes that the writer wrote.
fn show_read(rt: &impl Print, map: &[u8], reference: &[u8], work: &mut [u32], lines: &mut [u32]) {
    let mut row = [0; ROW];
    let answer = read(map, reference, work, lines);
    let end = put_read(answer, lines, &mut row);
    hand_over(rt, &row[..end]);
}

// Where the writer wrote bytes: reads exactly those.
fn read_back(
    rt: &impl Print,
    map: &[u8],
    answer: WriteAnswer,
    bytes: &[u8],
    work: &mut [u32],
    lines: &mut [u32],
) {
    let Ok(made) = answer else {
        return;
    };
    let written = made.bytes.min(bytes.len());
    show_read(rt, map, &bytes[..written], work, lines);
}

// Fills the buffers, writes into them and prints the row.
fn call(
    rt: &impl Print,
    map: &[u8],
    stretch: &[u32],
    pos: u32,
    neg: u32,
    tests: u32,
    work: &mut [u32],
    bytes: &mut [u8],
    lines: &mut [u32],
) {
    fill(work);
    fill_bytes(bytes);
    let answer = write(map, stretch, pos, neg, tests, work, bytes);
    show_call(rt, answer, work, bytes);
    read_back(rt, map, answer, bytes, work, lines);
    hand_over(rt, b"\n");
}

// Makes the call with the offsets and the number of leg tests that the numbers of the case say, and with a work area and a byte buffer of the lengths that they say.
fn run_case(
    rt: &impl Print,
    map: &[u8],
    stretch: &[u32],
    words: &[u8],
    work: &mut [u32],
    bytes: &mut [u8],
    lines: &mut [u32],
) {
    let work_length = (word_at(words, 12) as usize).min(work.len());
    let byte_room = (word_at(words, 16) as usize).min(bytes.len());
    call(
        rt,
        map,
        stretch,
        word_at(words, 0),
        word_at(words, 4),
        word_at(words, 8),
        &mut work[..work_length],
        &mut bytes[..byte_room],
        lines,
    );
}

// A case on its map: the stretch is taken out of its part, and the call made.
fn run_parts(rt: &impl Print, map: &[u8], part: &[u8], words: &[u8], work: &mut [u32]) {
    let mut stretch = [0; 80];
    let mut bytes = [0; 480];
    let mut lines = [0; 80];
    let count = take_words(part, &mut stretch);
    run_case(
        rt,
        map,
        &stretch[..count],
        words,
        work,
        &mut bytes,
        &mut lines,
    );
}

// Each case has three parts: a map, a stretch, and six numbers of four bytes each. These are the two offsets, the leg tests, the lengths of the work area
// and of the byte buffer, and 1 where the map is that of the case before.
fn run(rt: &impl Print, file: &[u8], work: &mut [u32]) {
    let mut at: usize = 0;
    let mut map = Part { start: 0, end: 0 };
    while let Some(given) = cases::part_at(file, at) {
        let Some(stretch) = cases::part_at(file, given.end) else {
            return;
        };
        let Some(words) = cases::part_at(file, stretch.end) else {
            return;
        };
        at = words.end;
        if word_at(&file[words.start..words.end], 20) == 0 {
            map = given;
        }
        run_parts(
            rt,
            &file[map.start..map.end],
            &file[stretch.start..stretch.end],
            &file[words.start..words.end],
            work,
        );
    }
}

fn main(rt: HostRuntime) {
    let mut file = cases::megabyte();
    let mut work = [0; 14_340];
    let n = console::load(&rt, b"cases.bin", &mut file);
    run(&rt, &file[..n], &mut work);
}
