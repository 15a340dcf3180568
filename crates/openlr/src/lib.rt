// The functions that a C program calls (paper 01, "The product"). include/openlr.h has them for C.
#![tactic(auto)]

ghost use Rattle.std.specs.Prelude.{◌≡◌, ◌*◌, ◌≤◌, ℕ, List, length, take, IfOk};
ghost use Rattle.model.specs.Refusal.{refusal_of};
ghost use Rattle.model.specs.Reference.{longest_reference};
ghost use Rattle.model.specs.Outcome.{ReadOutcome, Reads, WriteOutcome, Writes};
ghost use Rattle.model.specs.Work.{work_length};
ghost use Rattle.model.specs.Call.{lines_after, ReadAnswers, WriteAnswers, ReadAnswered, WriteAnswered};
ghost use Rattle.model.specs.Host.{greatest_host_lines, host_read, host_lines_after, HostReadCall, host_written, HostWriteCall};
ghost use Rattle.model.specs.OfMessage.{ReadsOfMessage, HostReadOfMessageCall};
ghost use Rattle.model.specs.Stretch.{stretch_of};
ghost use Rattle.openlr.specs.Host.{as_read, as_written, stretch_lines};

use buffers::words::{WORD_BYTES, put_words, take_words};
use model::limits::{GREATEST_HOST_LINES, GREATEST_STRETCH, WORK_LENGTH};
use model::{ReadAnswer, Refusal, Row, WriteAnswer, number_of};

pub mod messages;
pub mod point;

// How many line numbers are taken from a stretch: one more than it may have, so that a longer one is refused.
const STRETCH_NUMBERS: usize = GREATEST_STRETCH + 1;

// What the host gets from the reader; `struct openlr_reading` in C. 0 where a number says nothing.
#[repr(C)]
#[derive(Clone, Copy)]
pub struct Lines {
    pub refusal: u32,
    pub place: u32,
    pub lines: u32,
    pub pos_least: u32,
    pub pos_greatest: u32,
    pub neg_least: u32,
    pub neg_greatest: u32,
}

// What the host gets from the writer; `struct openlr_written` in C.
#[repr(C)]
#[derive(Clone, Copy)]
pub struct Written {
    pub refusal: u32,
    pub bytes: u32,
    pub tests: u32,
    pub excess: u32,
}

// What the host gets where the reader refuses.
fn no_lines(why: Refusal) -> Lines
    ensures { as_read result ≡ host_read (ReadOutcome.refused (refusal_of why)) }
{
    let row = Row::from(why);
    Lines {
        refusal: row.0,
        place: row.1,
        lines: 0,
        pos_least: 0,
        pos_greatest: 0,
        neg_least: 0,
        neg_greatest: 0,
    }
}

// What the host gets for the writer's answer.
fn told(answer: WriteAnswer) -> Written
    requires { IfOk answer (λ made. made.bytes ≤ longest_reference) }
    ensures { (o : WriteOutcome) → WriteAnswers answer o → as_written result ≡ host_written o }
{
    match answer {
        Ok(made) => Written {
            refusal: 0,
            bytes: made.bytes as u32,
            tests: made.tests,
            excess: made.excess,
        },
        Err(why) => Written {
            refusal: number_of(why),
            bytes: 0,
            tests: 0,
            excess: 0,
        },
    }
}

// Reads with a work area of its own.
fn read_into(map: &[u8], reference: &[u8], numbers: &mut [u32]) -> ReadAnswer
    ensures { ReadAnswered (Reads map.now reference.now work_length (length numbers.old))
        numbers.old numbers.new result }
{
    let mut work = [0u32; WORK_LENGTH];
    reader::read(map, reference, &mut work, numbers)
}

// What the host gets for the reader's answer. The lines that were read stand first in `numbers`, and go into `lines`, four bytes each, low byte first.
fn handed(answer: ReadAnswer, numbers: &[u32], lines: &mut [u8]) -> Lines
    requires { IfOk answer (λ found. (found.count ≤ length numbers.now) × (found.count * 4 ≤ length lines.old)
        × (found.count ≤ greatest_host_lines)) }
    ensures { (o : ReadOutcome) (before : List ℕ) → ReadAnswers answer o → numbers.now ≡ lines_after o before
        → (as_read result ≡ host_read o) × (lines.new ≡ host_lines_after o lines.old) }
{
    match answer {
        Ok(found) => {
            put_words(&numbers[..found.count], lines);
            Lines {
                refusal: 0,
                place: 0,
                lines: found.count as u32,
                pos_least: found.positive.least,
                pos_greatest: found.positive.greatest,
                neg_least: found.negative.least,
                neg_greatest: found.negative.greatest,
            }
        }
        Err(why) => no_lines(why),
    }
}

// Reads with line numbers in `numbers`.
fn read_lines(map: &[u8], reference: &[u8], numbers: &mut [u32], lines: &mut [u8]) -> Lines
    requires { length numbers.old ≡ greatest_host_lines }
    ensures { HostReadCall map.now reference.now lines.old (as_read result) lines.new }
{
    let room = (lines.len() / WORD_BYTES).min(numbers.len());
    let answer = read_into(map, reference, &mut numbers[..room]);
    handed(answer, &numbers[..room], lines)
}

// Reads a reference on a map.
#[unsafe(no_mangle)]
pub extern "C" fn openlr_read(map: &[u8], reference: &[u8], lines: &mut [u8]) -> Lines
    ensures { HostReadCall map.now reference.now lines.old (as_read result) lines.new }
{
    let mut numbers = [0u32; GREATEST_HOST_LINES];
    read_lines(map, reference, &mut numbers, lines)
}

// Reads out of a message with a work area of its own.
fn read_of_message_into(
    map: &[u8],
    message: &[u8],
    reference: &[u8],
    numbers: &mut [u32],
) -> ReadAnswer
    ensures { ReadAnswered (ReadsOfMessage map.now message.now reference.now work_length (length numbers.old))
        numbers.old numbers.new result }
{
    let mut work = [0u32; WORK_LENGTH];
    reader::read_of_message(map, message, reference, &mut work, numbers)
}

// Reads out of a message with line numbers in `numbers`.
fn read_lines_of_message(
    map: &[u8],
    message: &[u8],
    reference: &[u8],
    numbers: &mut [u32],
    lines: &mut [u8],
) -> Lines
    requires { length numbers.old ≡ greatest_host_lines }
    ensures { HostReadOfMessageCall map.now message.now reference.now lines.old (as_read result) lines.new }
{
    let room = (lines.len() / WORD_BYTES).min(numbers.len());
    let answer = read_of_message_into(map, message, reference, &mut numbers[..room]);
    handed(answer, &numbers[..room], lines)
}

// Reads a reference out of a message on a map.
#[unsafe(no_mangle)]
pub extern "C" fn openlr_read_of_message(
    map: &[u8],
    message: &[u8],
    reference: &[u8],
    lines: &mut [u8],
) -> Lines
    ensures { HostReadOfMessageCall map.now message.now reference.now lines.old (as_read result) lines.new }
{
    let mut numbers = [0u32; GREATEST_HOST_LINES];
    read_lines_of_message(map, message, reference, &mut numbers, lines)
}

// Takes the line numbers of a stretch from its bytes, as many as there is room for. Bytes whose count is no multiple of four hold no line.
fn take_stretch(bytes: &[u8], numbers: &mut [u32]) -> usize
    ensures { (result ≤ length numbers.old)
        × (take result numbers.new ≡ take (length numbers.old) (stretch_lines bytes.now)) }
{
    if bytes.len() % WORD_BYTES != 0 {
        return 0;
    }
    take_words(bytes, numbers)
}

// Writes with a work area of its own.
fn write_from(
    map: &[u8],
    stretch: &[u32],
    pos: u32,
    neg: u32,
    tests: u32,
    bytes: &mut [u8],
) -> WriteAnswer
    ensures { WriteAnswered (Writes map.now (stretch_of stretch.now pos neg) tests work_length (length bytes.old))
        bytes.old bytes.new result }
{
    let mut work = [0u32; WORK_LENGTH];
    writer::write(map, stretch, pos, neg, tests, &mut work, bytes)
}

// Writes the stretch whose line numbers were taken from a host's bytes.
fn write_taken(
    map: &[u8],
    numbers: &[u32],
    pos: u32,
    neg: u32,
    tests: u32,
    bytes: &mut [u8],
) -> Written
    ensures { (stretch : List ℕ) → numbers.now ≡ take 65 (stretch_lines stretch)
        → HostWriteCall map.now stretch pos neg tests bytes.old (as_written result) bytes.new }
{
    told(write_from(map, numbers, pos, neg, tests, bytes))
}

// Writes a reference for a stretch on a map, by `tests` leg tests at most. `stretch` has the line numbers, four bytes each, low byte first.
#[unsafe(no_mangle)]
pub extern "C" fn openlr_write(
    map: &[u8],
    stretch: &[u8],
    pos: u32,
    neg: u32,
    tests: u32,
    bytes: &mut [u8],
) -> Written
    ensures { HostWriteCall map.now stretch.now pos neg tests bytes.old (as_written result) bytes.new }
{
    let mut numbers = [0u32; STRETCH_NUMBERS];
    let count = take_stretch(stretch, &mut numbers);
    write_taken(map, &numbers[..count], pos, neg, tests, bytes)
}
