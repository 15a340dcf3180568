// A stretch as it is given: whether it is refused with 7, 8, 21 or 9, and what its offsets leave of it.
ghost use Rattle.std.specs.Prelude.{◌≡◌, ◌≤◌, reverse, length, take, drop};
ghost use Rattle.model.specs.Map.{Map};
ghost use Rattle.model.specs.Stretch.{unknown, gap, banned_pair, stretch_of};
ghost use Rattle.work_area.specs.Area.{Held};
ghost use Rattle.stretches.specs.Stretch.{Skips, Leaves, Checks};

use crate::lines::LineList;
use banned_turns::banned;
use buffers::wide;
use model::Refusal;
use model::limits::GREATEST_STRETCH;
use work_area::{END, LENGTH, START};

// What remains of a stretch: its lines from `from` up to `to`, and what is left of its offsets.
#[derive(Clone, Copy)]
pub struct Remaining {
    pub from: usize,
    pub to: usize,
    pub pos: u32,
    pub neg: u32,
}

// Where an offset stops dropping lines, and what is left of it.
#[derive(Clone, Copy)]
struct Stop {
    at: usize,
    offset: u32,
}

// Whether a line is none of the map's.
fn has_unknown(lines: usize, stretch: &[u32]) -> bool
    ensures { (m : Map) → length m.lines ≡ lines → result ≡ unknown m stretch.now }
{
    stretch.iter().any(|line| lines <= wide(*line))
}

// Whether a line does not end where the next starts.
fn has_gap(work: &[u32], stretch: LineList) -> bool
    requires held { (m : Map) × Held work.now stretch.lines m }
    ensures { (m : Map) → Held work.now stretch.entry.lines m → result ≡ gap m stretch.entry.numbers.now }
{
    for i in 1..stretch.numbers.len() {
        let end = stretch.field_of(work, i - 1, END);
        let start = stretch.field_of(work, i, START);
        if end != start {
            return true;
        }
    }
    false
}

// Whether a turn from a line into the next is banned.
fn has_ban(work: &[u32], stretch: LineList) -> bool
    requires held { (m : Map) × Held work.now stretch.lines m }
    ensures { (m : Map) → Held work.now stretch.entry.lines m → result ≡ banned_pair m stretch.entry.numbers.now }
{
    for i in 1..stretch.numbers.len() {
        let l = wide(stretch.numbers[i - 1]);
        let k = wide(stretch.numbers[i]);
        if banned(work, stretch.lines, l, k) {
            return true;
        }
    }
    false
}

// Drops lines from the front while the offset is not below the first one's length. The lines from `at` on are left.
fn skip_front(work: &[u32], stretch: LineList, offset: u32) -> Stop
    requires held { (m : Map) × Held work.now stretch.lines m }
    ensures { (result.at ≤ length stretch.entry.numbers.now) × ((m : Map) → Held work.now stretch.entry.lines m
        → Skips m offset stretch.entry.numbers.now (drop result.at stretch.entry.numbers.now) result.offset) }
{
    let mut left = offset;
    for at in 0..stretch.numbers.len() {
        let length = stretch.field_of(work, at, LENGTH);
        if left < length {
            return Stop { at, offset: left };
        }
        left -= length;
    }
    Stop {
        at: stretch.numbers.len(),
        offset: left,
    }
}

// The same from the end. The first `at` lines are left.
fn skip_back(work: &[u32], stretch: LineList, offset: u32) -> Stop
    requires held { (m : Map) × Held work.now stretch.lines m }
    ensures { (result.at ≤ length stretch.entry.numbers.now) × ((m : Map) → Held work.now stretch.entry.lines m
        → Skips m offset (reverse stretch.entry.numbers.now) (reverse (take result.at stretch.entry.numbers.now)) result.offset) }
{
    let mut left = offset;
    for last in (0..stretch.numbers.len()).rev() {
        let length = stretch.field_of(work, last, LENGTH);
        if left < length {
            return Stop {
                at: last + 1,
                offset: left,
            };
        }
        left -= length;
    }
    Stop {
        at: 0,
        offset: left,
    }
}

// What the two offsets leave of a stretch.
fn after_offsets(work: &[u32], stretch: LineList, pos: u32, neg: u32) -> Remaining
    requires held { (m : Map) × Held work.now stretch.lines m }
    ensures { (m : Map) → Held work.now stretch.entry.lines m → Leaves m (stretch_of stretch.entry.numbers.now pos neg) result }
{
    let front = skip_front(work, stretch, pos);
    let from = front.at;
    let back = skip_back(work, stretch.part(from, stretch.numbers.len()), neg);
    let to = from + back.at;
    Remaining {
        from,
        to,
        pos: front.offset,
        neg: back.offset,
    }
}

// The stretch of these lines and offsets: the first of refusals 7 to 9, or what remains of it.
pub fn check(
    work: &[u32],
    lines: usize,
    stretch: &[u32],
    pos: u32,
    neg: u32,
) -> Result<Remaining, Refusal>
    requires { (m : Map) × Held work.now lines m }
    ensures { (m : Map) → Held work.now lines m → Checks m (stretch_of stretch.now pos neg) result }
{
    if stretch.len() == 0 {
        return Err(Refusal::StretchLines);
    }
    if GREATEST_STRETCH < stretch.len() {
        return Err(Refusal::StretchLines);
    }
    if has_unknown(lines, stretch) {
        return Err(Refusal::StretchLines);
    }
    let list = LineList {
        numbers: stretch,
        lines,
    };
    if has_gap(work, list) {
        return Err(Refusal::StretchGap);
    }
    if has_ban(work, list) {
        return Err(Refusal::StretchBan);
    }
    if list.total_length(work) <= wide(pos) + wide(neg) {
        return Err(Refusal::StretchOffsets);
    }
    Ok(after_offsets(work, list, pos, neg))
}
