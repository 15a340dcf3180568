// Rows of readings, as the test programs print them: the answer, a sum over the lines handed back, what the call left of the work area, and whether the rest of
// the line buffer is as it was.
#![tactic(auto)]

ghost use Rattle.std.specs.Counts.{IsPrefixLen};

use answer_text::{put, put_head, put_number};
use cases::sum_of;
use console::hand_over;
use marks::{is_kept, put_rest, put_work};
use model::{PointReadAnswer, ReadAnswer, Span};

// More bytes than a row has: 118 for the answer's first row, 25 for the sum, 13 for each of the last two.
const ROW: usize = 192;

// Puts an answer's first row and, where it hands back lines, a sum over them; a count beyond the buffer shows by itself.
fn put_sum(answer: ReadAnswer, lines: &[u32], row: &mut [u8]) -> usize {
    let end = put_head(answer, row, 0);
    let Ok(found) = answer else {
        return end;
    };
    let handed_back = found.count.min(lines.len());
    put_number(b" sum ", sum_of(lines, 0, handed_back, 0), row, end)
}

// Prints the row of a reading of lines.
pub fn show_lines(rt: &impl Print, answer: ReadAnswer, work: &[u32], lines: &[u32]) {
    let mut row = [0; ROW];
    let count = answer.map_or(0, |found| found.count).min(lines.len());
    let sum = put_sum(answer, lines, &mut row);
    let state = put_work(work, &mut row, sum);
    let rest = put_rest(is_kept(lines, count), &mut row, state);
    let end = put(b"\n", &mut row, rest);
    hand_over(rt, &row[..end]);
}

// Puts a count of lines and the span of an offset.
fn put_span(count: usize, span: Span, row: &mut [u8], at: usize) -> usize
    ensures { IsPrefixLen result row.new }
{
    let counted = put_number(b"lines ", count as u64, row, at);
    let least = put_number(b" offset ", span.least as u64, row, counted);
    put_number(b" ", span.greatest as u64, row, least)
}

// Puts an orientation and a side, and a sum over the lines.
fn put_rest_of_point(orientation: u32, side: u32, sum: u64, row: &mut [u8], at: usize) -> usize
    ensures { IsPrefixLen result row.new }
{
    let oriented = put_number(b" orientation ", orientation as u64, row, at);
    let sided = put_number(b" side ", side as u64, row, oriented);
    put_number(b" sum ", sum, row, sided)
}

// Puts what the reader answers and, where it hands back lines, a sum over them; a count beyond the buffer shows by itself.
pub fn put_point(answer: PointReadAnswer, lines: &[u32], row: &mut [u8], at: usize) -> usize
    ensures { IsPrefixLen result row.new }
{
    match answer {
        Ok(found) => {
            let sum = sum_of(lines, 0, found.count.min(lines.len()), 0);
            let end = put_span(found.count, found.offset, row, at);
            put_rest_of_point(found.orientation, found.side, sum, row, end)
        }
        Err(why) => put_head(Err(why), row, at),
    }
}

// Prints the row of a reading of a point.
pub fn show_point(rt: &impl Print, answer: PointReadAnswer, work: &[u32], lines: &[u32]) {
    let mut row = [0; ROW];
    let count = answer.map_or(0, |found| found.count).min(lines.len());
    let told = put_point(answer, lines, &mut row, 0);
    let state = put_work(work, &mut row, told);
    let rest = put_rest(is_kept(lines, count), &mut row, state);
    let end = put(b"\n", &mut row, rest);
    hand_over(rt, &row[..end]);
}
