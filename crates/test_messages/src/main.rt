// Makes the calls of cases.bin on messages and prints a row for each: the answer, and a sum over the whole buffer after the call; of a reference that is asked
// for, its count of bytes and a sum over them, and of a received message where it stands; of a start what it left of the work area, and of a reading out of a
// message what test_reads and test_points print. What it prints is held to what the unrelated implementation says (oracle/pack.py).
#![tactic(auto)]

ghost use Rattle.std.specs.Counts.{IsPrefixLen};

use answer_text::{put, put_number};
use cases::{Part, sum_of_bytes, word_at};
use console::hand_over;
use marks::{fill, fill_bytes, put_work};
use message::{add_bytes, close_reference, open_reference, reference};
use message_list::{place, received};
use message_start::start;
use model::{Message, MessageAnswer, number_of};
use point_reader::read_point_of_message;
use reader::read_of_message;
use reading_rows::{show_lines, show_point};

// More bytes than a row has.
const ROW: usize = 96;

// The longest buffer of a case, some bytes more than a message has.
const BUFFER: usize = 16_400;

// What a part is.
#[derive(Clone, Copy)]
enum Kind {
    Buffer,
    Opening,
    Adding,
    Closing,
    Finished,
    Received,
    Start,
    Map,
    Lines,
    Point,
}

// A part's first byte tells what it is.
impl From<u8> for Kind {
    fn from(first: u8) -> Kind {
        match first {
            0 => Kind::Buffer,
            1 => Kind::Opening,
            2 => Kind::Adding,
            3 => Kind::Closing,
            4 => Kind::Finished,
            5 => Kind::Received,
            6 => Kind::Start,
            7 => Kind::Map,
            8 => Kind::Lines,
            _ => Kind::Point,
        }
    }
}

// The message at hand, and how many bytes its buffer has.
#[derive(Clone, Copy)]
struct Written {
    message: Message,
    room: usize,
}

// Puts a message.
fn put_message(m: Message, row: &mut [u8]) -> usize
    ensures { IsPrefixLen result row.new }
{
    match m {
        Message::Closed(finished) => put_number(b"closed ", finished as u64, row, 0),
        Message::Open(finished, added) => {
            let end = put_number(b"open ", finished as u64, row, 0);
            put_number(b" ", added as u64, row, end)
        }
    }
}

// Puts an answer.
fn put_told(answer: MessageAnswer, row: &mut [u8]) -> usize
    ensures { IsPrefixLen result row.new }
{
    match answer {
        Ok(m) => put_message(m, row),
        Err(why) => put_number(b"refused ", number_of(why) as u64, row, 0),
    }
}

// Prints the row of a call that starts a message.
fn show_start(rt: &impl Print, answer: MessageAnswer, buffer: &[u8], work: &[u32]) {
    let mut row = [0; ROW];
    let told = put_told(answer, &mut row);
    let summed = put_number(b" sum ", sum_of_bytes(buffer, buffer.len()), &mut row, told);
    let state = put_work(work, &mut row, summed);
    let end = put(b"\n", &mut row, state);
    hand_over(rt, &row[..end]);
}

// Prints the row of a call that writes.
fn show(rt: &impl Print, answer: MessageAnswer, buffer: &[u8]) {
    let mut row = [0; ROW];
    let told = put_told(answer, &mut row);
    let summed = put_number(b" sum ", sum_of_bytes(buffer, buffer.len()), &mut row, told);
    let end = put(b"\n", &mut row, summed);
    hand_over(rt, &row[..end]);
}

// The message that the calls go on with.
fn going_on(answer: MessageAnswer, m: Message) -> Message {
    answer.unwrap_or(m)
}

// The same, with the row printed.
fn shown(rt: &impl Print, answer: MessageAnswer, m: Message, buffer: &[u8]) -> Message {
    show(rt, answer, buffer);
    going_on(answer, m)
}

// Prints the rest of the row of a reference that was asked for.
fn show_part(rt: &impl Print, part: &[u8]) {
    let mut row = [0; ROW];
    let counted = put_number(b"bytes ", part.len() as u64, &mut row, 0);
    let summed = put_number(b" sum ", sum_of_bytes(part, part.len()), &mut row, counted);
    let end = put(b"\n", &mut row, summed);
    hand_over(rt, &row[..end]);
}

// Asks for a reference of a message that is being written.
fn ask_finished(rt: &impl Print, m: Message, buffer: &[u8], n: u32) {
    show_part(rt, reference(m, buffer, n as usize));
}

// Asks for a reference of a received message: first where it stands, then the part itself.
fn ask_received(rt: &impl Print, message: &[u8], n: u32) {
    let mut row = [0; ROW];
    let part = place(message, n as usize);
    let placed = put_number(b"from ", part.start as u64, &mut row, 0);
    let end = put(b" ", &mut row, placed);
    hand_over(rt, &row[..end]);
    show_part(rt, received(message, n as usize));
}

// Starts a message with this work area and prints the row. A refusal leaves the message that was under way.
fn start_with(
    rt: &impl Print,
    map: &[u8],
    m: Message,
    buffer: &mut [u8],
    work: &mut [u32],
) -> Message {
    fill(work);
    let answer = start(map, work, buffer);
    show_start(rt, answer, buffer, work);
    going_on(answer, m)
}

// Starts a message with a work area of the length that the part's number says.
fn run_start(
    rt: &impl Print,
    map: &[u8],
    rest: &[u8],
    m: Message,
    buffer: &mut [u8],
    work: &mut [u32],
) -> Message {
    let length = (word_at(rest, 0) as usize).min(work.len());
    start_with(rt, map, m, buffer, &mut work[..length])
}

// Reads lines out of a message and prints the row.
fn read_lines(
    rt: &impl Print,
    map: &[u8],
    message: &[u8],
    reference: &[u8],
    work: &mut [u32],
    lines: &mut [u32],
) {
    fill(work);
    fill(lines);
    let answer = read_of_message(map, message, reference, work, lines);
    show_lines(rt, answer, work, lines);
}

// Reads a point out of a message and prints the row.
fn read_point(
    rt: &impl Print,
    map: &[u8],
    message: &[u8],
    reference: &[u8],
    work: &mut [u32],
    lines: &mut [u32],
) {
    fill(work);
    fill(lines);
    let answer = read_point_of_message(map, message, reference, work, lines);
    show_point(rt, answer, work, lines);
}

// Reads a reference out of a message: lines, or else a point.
fn run_kind(
    rt: &impl Print,
    kind: Kind,
    map: &[u8],
    message: &[u8],
    reference: &[u8],
    work: &mut [u32],
    lines: &mut [u32],
) {
    match kind {
        Kind::Lines => read_lines(rt, map, message, reference, work, lines),
        _ => read_point(rt, map, message, reference, work, lines),
    }
}

// Reads with a work area and a line buffer of the lengths that the part's first two numbers say. The third is the message's count of bytes; behind them stands the
// reference.
fn run_read(
    rt: &impl Print,
    kind: Kind,
    map: &[u8],
    rest: &[u8],
    work: &mut [u32],
    lines: &mut [u32],
) {
    let length = (word_at(rest, 0) as usize).min(work.len());
    let room = (word_at(rest, 4) as usize).min(lines.len());
    let from = rest.len().min(12);
    let to = (from + word_at(rest, 8) as usize).min(rest.len());
    run_kind(
        rt,
        kind,
        map,
        &rest[from..to],
        &rest[to..],
        &mut work[..length],
        &mut lines[..room],
    );
}

// The message after a call that adds the rest of the part.
fn run_add(rt: &impl Print, rest: &[u8], m: Message, buffer: &mut [u8]) -> Message {
    let answer = add_bytes(m, buffer, rest);
    shown(rt, answer, m, buffer)
}

// The message after a call without a map. It asks for the reference whose number is the rest, or for that of a message that stands behind the number.
fn run_call(rt: &impl Print, kind: Kind, rest: &[u8], m: Message, buffer: &mut [u8]) -> Message {
    match kind {
        Kind::Opening => shown(rt, open_reference(m), m, buffer),
        Kind::Adding => run_add(rt, rest, m, buffer),
        Kind::Closing => shown(rt, close_reference(m), m, buffer),
        Kind::Finished => {
            ask_finished(rt, m, buffer, word_at(rest, 0));
            m
        }
        _ => {
            let number = rest.len().min(4);
            ask_received(rt, &rest[number..], word_at(rest, 0));
            m
        }
    }
}

// The message after a call on the map at hand: one starts it, two read out of one, and the others are calls without a map.
fn run_on_map(
    rt: &impl Print,
    kind: Kind,
    map: &[u8],
    rest: &[u8],
    m: Message,
    buffer: &mut [u8],
    work: &mut [u32],
    lines: &mut [u32],
) -> Message {
    match kind {
        Kind::Start => run_start(rt, map, rest, m, buffer, work),
        Kind::Lines | Kind::Point => {
            run_read(rt, kind, map, rest, work, lines);
            m
        }
        _ => run_call(rt, kind, rest, m, buffer),
    }
}

// A buffer of as many bytes as the part's number says, filled with marks, and no message in it.
fn begin(part: &[u8], buffer: &mut [u8]) -> Written {
    let room = (word_at(part, 1) as usize).min(buffer.len());
    fill_bytes(&mut buffer[..room]);
    Written {
        message: Message::Closed(0),
        room,
    }
}

// What a part is. One without bytes counts as a map.
fn kind_of(part: &[u8]) -> Kind {
    match part.first() {
        Some(first) => Kind::from(*first),
        None => Kind::Map,
    }
}

// What stands behind a part's first byte.
fn behind_kind(part: &[u8]) -> &[u8] {
    let first = part.len().min(1);
    &part[first..]
}

// The message after a call, in as much of the buffer as it was given.
fn run_in_room(
    rt: &impl Print,
    kind: Kind,
    part: &[u8],
    map: &[u8],
    written: Written,
    buffer: &mut [u8],
    work: &mut [u32],
    lines: &mut [u32],
) -> Written {
    let room = written.room.min(buffer.len());
    let message = run_on_map(
        rt,
        kind,
        behind_kind(map),
        behind_kind(part),
        written.message,
        &mut buffer[..room],
        work,
        lines,
    );
    Written { message, room }
}

// The message after a part, with the part that is the map at hand.
fn run_part(
    rt: &impl Print,
    part: &[u8],
    map: &[u8],
    written: Written,
    buffer: &mut [u8],
    work: &mut [u32],
    lines: &mut [u32],
) -> Written {
    match kind_of(part) {
        Kind::Map => written,
        Kind::Buffer => begin(part, buffer),
        kind => run_in_room(rt, kind, part, map, written, buffer, work, lines),
    }
}

fn run(rt: &impl Print, bytes: &[u8], buffer: &mut [u8], work: &mut [u32], lines: &mut [u32]) {
    let mut at: usize = 0;
    let mut map = Part { start: 0, end: 0 };
    let mut written = Written {
        message: Message::Closed(0),
        room: 0,
    };
    while let Some(part) = cases::part_at(bytes, at) {
        at = part.end;
        if let Kind::Map = kind_of(&bytes[part.start..part.end]) {
            map = part;
        }
        written = run_part(
            rt,
            &bytes[part.start..part.end],
            &bytes[map.start..map.end],
            written,
            buffer,
            work,
            lines,
        );
    }
}

fn main(rt: HostRuntime) {
    let mut bytes = cases::megabyte();
    let mut buffer = [0; BUFFER];
    let mut work = [0; 14_340];
    let mut lines = [0; 1_100];
    let n = console::load(&rt, b"cases.bin", &mut bytes);
    run(&rt, &bytes[..n], &mut buffer, &mut work, &mut lines);
}
