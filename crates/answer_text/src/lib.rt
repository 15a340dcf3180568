// An answer as the bytes that the program prints, put into a lent buffer. What does not fit is left out.
#![tactic(auto)]

ghost use Rattle.std.specs.Prelude.{◌≡◌, ◌≤◌, length, drop};
ghost use Rattle.model.specs.Refusal.{refusal_of};
ghost use Rattle.model.specs.Text.{decimal, most_digits, numbered, each, acceptance, refusal, text, told};
ghost use Rattle.answer_text.specs.Put.{Put, head_of};

use model::{ReadAnswer, ReadLines, Refusal, number_of};

// No number of 64 bits has more digits (crates/model/specs/Text.antt).
const MOST_DIGITS: usize = 20;

// Puts bytes from place `at` on, as many as fit: where they end.
pub fn put(bytes: &[u8], buffer: &mut [u8], at: usize) -> usize
    ensures { Put at bytes.now buffer.old buffer.new result }
{
    let from = at.min(buffer.len());
    let count = bytes.len().min(buffer.len() - from);
    buffer[from..from + count].copy_from_slice(&bytes[..count]);
    from + count
}

// Puts the digits of a number last into a buffer that holds any number's: where they start.
fn put_digits(number: u64, digits: &mut [u8]) -> usize
    requires { length digits.old ≡ most_digits }
    ensures { (result ≤ most_digits) × (drop result digits.new ≡ decimal number) }
{
    let mut rest = number;
    for i in (0..MOST_DIGITS).rev() {
        digits[i] = b'0' + (rest % 10) as u8;
        if rest < 10 {
            return i;
        }
        rest /= 10;
    }
    0
}

// Puts a number in decimal digits.
pub fn put_decimal(number: u64, buffer: &mut [u8], at: usize) -> usize
    ensures { Put at (decimal number) buffer.old buffer.new result }
{
    let mut digits = [0; MOST_DIGITS];
    let start = put_digits(number, &mut digits);
    put(&digits[start..], buffer, at)
}

// Puts a word and a number behind it.
pub fn put_number(word: &[u8], number: u64, buffer: &mut [u8], at: usize) -> usize
    ensures { Put at (numbered word.now number) buffer.old buffer.new result }
{
    let next = put(word, buffer, at);
    put_decimal(number, buffer, next)
}

// Puts each of the numbers, with the word before it.
pub fn put_each(word: &[u8], numbers: &[u32], buffer: &mut [u8], at: usize) -> usize
    ensures { Put at (each word.now numbers.now) buffer.old buffer.new result }
{
    let mut end = at.min(buffer.len());
    for number in numbers {
        end = put_number(word, u64::from(*number), buffer, end);
    }
    end
}

// Puts the count of lines and the spans.
fn put_acceptance(found: ReadLines, buffer: &mut [u8], at: usize) -> usize
    ensures { Put at (acceptance found.count found.positive found.negative) buffer.old buffer.new result }
{
    let lines = put_number(b"lines ", found.count as u64, buffer, at);
    let least = put_number(b" pos ", found.positive.least as u64, buffer, lines);
    let greatest = put_number(b" ", found.positive.greatest as u64, buffer, least);
    let other = put_number(b" neg ", found.negative.least as u64, buffer, greatest);
    put_number(b" ", found.negative.greatest as u64, buffer, other)
}

// Puts a refusal by its number in the papers' tables, then the point or leg if it has one.
fn put_refusal(why: Refusal, buffer: &mut [u8], at: usize) -> usize
    ensures { Put at (refusal (refusal_of why)) buffer.old buffer.new result }
{
    let end = put_number(b"refused ", number_of(why) as u64, buffer, at);
    match why {
        Refusal::NoNode(point) => put_number(b" ", point as u64, buffer, end),
        Refusal::NoReading(leg) => put_number(b" ", leg as u64, buffer, end),
        Refusal::SeveralReadings(leg) => put_number(b" ", leg as u64, buffer, end),
        _ => end,
    }
}

// Puts the first row of an answer, without the end of the row.
#[tactic(auto, unfolding(crate::specs::Put::head_of))]
pub fn put_head(answer: ReadAnswer, buffer: &mut [u8], at: usize) -> usize
    ensures { Put at (head_of answer) buffer.old buffer.new result }
{
    match answer {
        Ok(found) => put_acceptance(found, buffer, at),
        Err(why) => put_refusal(why, buffer, at),
    }
}

// Puts what the program prints for an answer and the line buffer behind the call, from the buffer's start on: how many bytes.
pub fn put_answer(answer: ReadAnswer, lines: &[u32], buffer: &mut [u8]) -> usize
    ensures { Put 0 (text (told answer lines.now)) buffer.old buffer.new result }
{
    match answer {
        Ok(found) => {
            let count = found.count.min(lines.len());
            let head = put_acceptance(ReadLines { count, ..found }, buffer, 0);
            let rows = put_each(b"\n", &lines[..count], buffer, head);
            put(b"\n", buffer, rows)
        }
        Err(why) => {
            let row = put_refusal(why, buffer, 0);
            put(b"\n", buffer, row)
        }
    }
}
