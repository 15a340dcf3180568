// The writer of references (paper 01): `write`, and its parts in the order in which they are asked.
#![tactic(auto)]

ghost use Rattle.std.specs.Prelude.{◌≡◌, ◌≤◌, ◌<◌, length};
ghost use Rattle.model.specs.Map.{Map, decode};
ghost use Rattle.model.specs.Lines.{Connected};
ghost use Rattle.model.specs.Stretch.{check_stretch, stretch_of};
ghost use Rattle.model.specs.LegTests.{tests_made};
ghost use Rattle.model.specs.Outcome.{WriteOn, WriteStretch, WriteMap};
ghost use Rattle.model.specs.Work.{work_length};
ghost use Rattle.model.specs.Call.{WriteAnswered, WriteCall};
ghost use Rattle.search_cells.specs.Area.{Set};
ghost use Rattle.reference_bytes.specs.Put.{Inside};
ghost use Rattle.writer.specs.Found.{Finds};

use leg_tests::test_legs;
use model::{Refusal, WriteAnswer, WrittenBytes};
use opening::open_map;
use point_choice::choose;
use point_choice::untested::hoped_legs;
use reference_bytes::put;
use stretches::lines::LineList;
use stretches::stretch::check;
use work_area::step::in_work_area;

// A number for each leg of a stretch of up to 64 lines, and one for each of its positions.
const LEG_TESTS: usize = 4_160;

const CUTS: usize = 65;

// The route to take over legs tested good: how many legs it has, how many tests were made, and by how many legs at most it exceeds the fewest.
#[derive(Clone, Copy)]
struct Found {
    legs: usize,
    tests: u32,
    excess: u32,
}

// Tests legs, and chooses points over those tested good: `cuts` gets 0 and then where each leg ends. There may be no choice of points even when untested
// legs count as good, or none over legs tested good.
fn find(work: &mut [u32], part: LineList, tests: u32, cuts: &mut [u32]) -> Result<Found, Refusal>
    requires part_len_bound { (length part.numbers.now ≤ 64) × (length part.numbers.now < length cuts.old) }
    requires set { (m : Map) × Set m part.lines work.old × Connected m part.numbers.now }
    ensures { (m : Map) → Set m part.entry.lines work.old → Connected m part.entry.numbers.now
        → Set m part.entry.lines work.new × Finds m part.entry.numbers.now (tests_made (length part.entry.numbers.now) tests) cuts.new result }
{
    let mut table = [0u8; LEG_TESTS];
    let made = test_legs(work, part, tests as usize, &mut table);
    let chosen = choose(&table, part.numbers.len(), cuts);
    let hoped = hoped_legs(&mut table, part.numbers.len(), made).ok_or(Refusal::NoChoice)?;
    let legs = chosen.ok_or(Refusal::Unfinished)?;
    let excess = (legs - hoped) as u32;
    Ok(Found {
        legs,
        tests: made as u32,
        excess,
    })
}

// The answer for what remains of a stretch, with so many leg tests.
pub fn on_part(
    work: &mut [u32],
    part: LineList,
    pos: u32,
    neg: u32,
    tests: u32,
    bytes: &mut [u8],
) -> WriteAnswer
    requires part_len_bound { length part.numbers.now ≤ 64 }
    requires set { (m : Map) × Set m part.lines work.old × Connected m part.numbers.now × Inside m (stretch_of part.numbers.now pos neg) }
    ensures { (m : Map) → Set m part.entry.lines work.old → Connected m part.entry.numbers.now → Inside m (stretch_of part.entry.numbers.now pos neg)
        → WriteAnswered (WriteOn m (stretch_of part.entry.numbers.now pos neg) (tests_made (length part.entry.numbers.now) tests) (length bytes.old))
        bytes.old bytes.new result }
{
    let mut cuts = [0; CUTS];
    let found = find(work, part, tests, &mut cuts)?;
    let count = put(work, part, &cuts, found.legs, pos, neg, bytes).ok_or(Refusal::BytesShort)?;
    Ok(WrittenBytes {
        bytes: count,
        tests: found.tests,
        excess: found.excess,
    })
}

// The answer on a map that is ready in the work area.
fn on_map(
    work: &mut [u32],
    lines: usize,
    stretch: &[u32],
    pos: u32,
    neg: u32,
    tests: u32,
    bytes: &mut [u8],
) -> WriteAnswer
    requires { (m : Map) × Set m lines work.old }
    ensures { (m : Map) → Set m lines work.old
        → WriteAnswered (WriteStretch m (check_stretch m (stretch_of stretch.now pos neg)) tests (length bytes.old))
        bytes.old bytes.new result }
{
    let left = check(work, lines, stretch, pos, neg)?;
    let part = LineList {
        numbers: &stretch[left.from..left.to],
        lines,
    };
    on_part(work, part, left.pos, left.neg, tests, bytes)
}

// Writes a stretch of lines with its offsets, in centimetres, on a map, by `tests` leg tests at most. An answer that it is written has the count of bytes,
// which stand first in `bytes`, the tests made, and by how many points at most the reference exceeds the fewest. The work area needs 14,336 numbers. They
// are 0 afterwards.
pub fn write(
    map: &[u8],
    stretch: &[u32],
    pos: u32,
    neg: u32,
    tests: u32,
    work: &mut [u32],
    bytes: &mut [u8],
) -> WriteAnswer
    ensures { WriteCall map.now (stretch_of stretch.now pos neg) tests work.old bytes.old result
        work.new bytes.new }
{
    in_work_area(
        work,
        bytes,
        |area, out|
            requires { length area.old ≡ work_length }
            ensures { WriteAnswered (WriteMap (decode map.entry.now) (stretch_of stretch.entry.now pos neg) tests (length out.old))
                out.old out.new result }
        {
            let opened = open_map(map, area)?;
            on_map(area, opened.lines, stretch, pos, neg, tests, out)
        },
    )
}
