// Judges the legs of cases.bin, each on its own map, and prints a row for each: none, several, or one with its first and last line, its length, its
// count of lines and the lines themselves. What it prints is held to what the unrelated implementation says (oracle/pack.py).
#![tactic(auto)]

ghost use Rattle.std.specs.Prelude.{◌≡◌, ℕ, ◌<◌, ◌≤◌, length};
ghost use Rattle.model.specs.Map.{Map, greatest_line_count};
ghost use Rattle.fields.specs.Leg.{leg_in};
ghost use Rattle.legs.specs.Verdict.{Anywhere, Judged};
ghost use Rattle.search_cells.specs.Area.{Set};
ghost use Rattle.way_lengths.specs.Ways.{Stands};
ghost use Rattle.model.specs.Work.{work_length};
ghost use Rattle.model.specs.Reading as definitions;

use cases::{Part, word_at};
use console::{hand_over, print, print_each};
use fields::leg::{Attributes, Leg, Reading, Verdict, longest_leg};
use legs::first_lines::both;
use model::limits::WORK_LENGTH;
use model::number_of;
use opening::open_map;
use reference_legs::termini::{first_terminus, next_terminus, read_terminus};
use search::search;
use way_lengths::Terminus;
use ways::{Ways, ways_from, write_lines};
use work_area::MAP_LINES;

fn attributes_at(words: &[u8], at: usize) -> Attributes
    requires { at < 1_000 }
{
    Attributes {
        frc: word_at(words, at),
        fow: word_at(words, at + 4),
        sector: word_at(words, at + 8),
    }
}

// How a leg arrives: the eighth number says whether the last three are its last line's attributes.
fn arrival_of(words: &[u8]) -> Option<Attributes> {
    if word_at(words, 28) == 0 {
        return None;
    }
    Some(attributes_at(words, 32))
}

// A leg from its numbers, of four bytes each: two nodes, FRC, FOW and sector of its first line, its lowest class, D, and how it arrives.
fn leg_of(words: &[u8]) -> Leg {
    Leg {
        from: word_at(words, 0) as usize,
        to: word_at(words, 4) as usize,
        leaves: attributes_at(words, 8),
        lowest: word_at(words, 20),
        distance: word_at(words, 24),
        arrival: arrival_of(words),
    }
}

fn print_verdict(rt: &impl Print, found: Verdict) {
    match found {
        Verdict::Unread => {
            hand_over(rt, b"none");
        }
        Verdict::One(reading) => {
            print(rt, b"one ", reading.first as u64);
            print(rt, b" ", reading.last as u64);
            print(rt, b" ", reading.length as u64);
            print(rt, b" ", reading.count as u64);
        }
        Verdict::Several => {
            hand_over(rt, b"several");
        }
    }
}

// The verdict on a leg: that on the readings to each of its termini, one after another.
fn verdict(work: &mut [u32], lines: usize, leg: Leg) -> Verdict
    requires { (m : Map) × Set m lines work.old × (leg.to < length m.nodes) }
    ensures { (m : Map) → Set m lines work.old → leg.to < length m.nodes
        → Judged m lines (definitions.Reading m (leg_in leg)) Anywhere work.old work.new result }
{
    let mut found = Verdict::Unread;
    let mut at = first_terminus(work, lines, leg);
    while 0 < at {
        let more = read_terminus(work, lines, at, leg);
        found = both(found, more);
        at = next_terminus(work, lines, at, leg);
    }
    found
}

// The same where the leg may end at no node of the map: then it has no reading. Nor has one that starts at no node: no line starts there.
fn judge(work: &mut [u32], nodes: u32, lines: usize, leg: Leg) -> Verdict
    requires { (m : Map) × Set m lines work.old × (length m.nodes ≡ nodes) }
    ensures { (m : Map) → Set m lines work.old → length m.nodes ≡ nodes → Set m lines work.new }
{
    if nodes as usize <= leg.to {
        return Verdict::Unread;
    }
    verdict(work, lines, leg)
}

// Where the reading of a leg ends: at the leg's end node; on a last leg with the reading's last line.
fn terminus_of(leg: Leg, reading: Reading) -> Terminus
    ensures { (m : Map) (lines : ℕ) → leg.to < length m.nodes → reading.last < lines → Stands m lines result }
{
    match leg.arrival {
        None => Terminus::Node(leg.to),
        Some(_) => Terminus::Line(reading.last),
    }
}

// Writes the lines of a leg's reading by a search back from where it ends, and answers how many they are: 0 where the search finds no such reading.
fn write_reading(
    work: &mut [u32],
    nodes: u32,
    lines: usize,
    leg: Leg,
    reading: Reading,
    out: &mut [u32],
) -> usize
    requires { ((m : Map) × Set m lines work.old × (length m.nodes ≡ nodes)) × (greatest_line_count ≤ length out.old) }
    ensures { result ≤ greatest_line_count }
{
    let first = reading.first;
    if lines <= first {
        return 0;
    }
    if lines <= reading.last {
        return 0;
    }
    if nodes as usize <= leg.to {
        return 0;
    }
    let limit = longest_leg(leg.distance);
    search(work, lines, terminus_of(leg, reading), leg.lowest, limit);
    let Ways::One(_, _, count) = ways_from(work, lines, first, limit) else {
        return 0;
    };
    write_lines(work, first, &mut out[..count]);
    count
}

// Prints the verdict on a leg, and the lines of its reading where there is one.
fn show_leg(rt: &impl Print, work: &mut [u32], nodes: u32, lines: usize, leg: Leg)
    requires { (m : Map) × Set m lines work.old × (length m.nodes ≡ nodes) }
{
    let found = judge(work, nodes, lines, leg);
    print_verdict(rt, found);
    let Verdict::One(reading) = found else {
        return;
    };
    let mut out = [0; MAP_LINES];
    let n = write_reading(work, nodes, lines, leg, reading, &mut out);
    hand_over(rt, b":");
    print_each(rt, b" ", &out[..n]);
}

// Prints what is found of a leg, or why its map is refused.
fn show(rt: &impl Print, map: &[u8], words: &[u8], work: &mut [u32])
    requires { work_length ≤ length work.old }
{
    match open_map(map, work) {
        Ok(opened) => show_leg(rt, work, opened.nodes, opened.lines, leg_of(words)),
        Err(why) => {
            print(rt, b"refused ", number_of(why) as u64);
        }
    }
}

// Each case has two parts, a map and a leg. An empty map stands for the one before it.
fn run(rt: &impl Print, bytes: &[u8], work: &mut [u32])
    requires { work_length ≤ length work.old }
{
    let mut at: usize = 0;
    let mut map = Part { start: 0, end: 0 };
    while let Some(given) = cases::part_at(bytes, at) {
        let Some(leg) = cases::part_at(bytes, given.end) else {
            return;
        };
        at = leg.end;
        if given.start < given.end {
            map = given;
        }
        show(
            rt,
            &bytes[map.start..map.end],
            &bytes[leg.start..leg.end],
            work,
        );
        hand_over(rt, b"\n");
    }
}

fn main(rt: HostRuntime) {
    let mut bytes = cases::megabyte();
    let mut work = [0; WORK_LENGTH];
    let n = console::load(&rt, b"cases.bin", &mut bytes);
    run(&rt, &bytes[..n], &mut work);
}
