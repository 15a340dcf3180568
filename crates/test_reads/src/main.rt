// Reads the references of cases.bin, each on its own map, and prints a row for each: the answer, a sum over the lines handed back, what the call left of
// the work area, and whether the rest of the line buffer is as it was. What it prints is held to what the unrelated implementation says (oracle/pack.py).
#![tactic(auto)]

use cases::{Part, word_at};
use marks::fill;
use reader::read;
use reading_rows::show_lines;

// Fills the buffers, reads into them and prints the row.
fn call(rt: &impl Print, map: &[u8], reference: &[u8], work: &mut [u32], lines: &mut [u32]) {
    fill(work);
    fill(lines);
    let answer = read(map, reference, work, lines);
    show_lines(rt, answer, work, lines);
}

// Makes the call with a work area and a line buffer of the lengths that the numbers of the case say.
fn run_case(
    rt: &impl Print,
    map: &[u8],
    reference: &[u8],
    words: &[u8],
    work: &mut [u32],
    lines: &mut [u32],
) {
    let work_length = (word_at(words, 0) as usize).min(work.len());
    let line_room = (word_at(words, 4) as usize).min(lines.len());
    call(
        rt,
        map,
        reference,
        &mut work[..work_length],
        &mut lines[..line_room],
    );
}

// Each case has three parts: a map, a reference, and three numbers of four bytes each. These are the lengths of the work area and of the line buffer,
// and 1 where the map is that of the case before.
fn run(rt: &impl Print, bytes: &[u8], work: &mut [u32], lines: &mut [u32]) {
    let mut at: usize = 0;
    let mut map = Part { start: 0, end: 0 };
    while let Some(given) = cases::part_at(bytes, at) {
        let Some(reference) = cases::part_at(bytes, given.end) else {
            return;
        };
        let Some(words) = cases::part_at(bytes, reference.end) else {
            return;
        };
        at = words.end;
        if word_at(&bytes[words.start..words.end], 8) == 0 {
            map = given;
        }
        run_case(
            rt,
            &bytes[map.start..map.end],
            &bytes[reference.start..reference.end],
            &bytes[words.start..words.end],
            work,
            lines,
        );
    }
}

// The line buffer holds the longest reading of the cases, of 65,473 lines, and some numbers more.
fn main(rt: HostRuntime) {
    let mut bytes = cases::megabyte();
    let mut work = [0; 14_340];
    let mut lines = [0; 65_480];
    let n = console::load(&rt, b"cases.bin", &mut bytes);
    run(&rt, &bytes[..n], &mut work, &mut lines);
}
