// A line of the map: its nine numbers, from the bytes into the work area, where two sectors stand in place of the four steps.
ghost use Rattle.work_area.specs.Area.{line_size};
ghost use Rattle.model.specs.Map.{greatest_line_count};
ghost use Rattle.model.specs.Work.{work_length};
ghost use Rattle.std.specs.Prelude.{◌+◌, ◌-◌, ◌≤◌, ◌<◌, length, eqb, ◌&&◌, ◌≡◌};
ghost use Rattle.model.specs.Sector.{step_added};
ghost use Rattle.depot_map.specs.Part.{StepsRead, AttributesRead, LineRead};

use crate::field::{Fault, field};
use buffers::number::Number;
use fields::sector::sector;
use model::limits::{GREATEST_LINE_LENGTH, GREATEST_STEP, STEP_ADDED};
use work_area::{LINE_NUMBERS, LINES};

// The greatest road class (FRC).
const GREATEST_FRC: u32 = 7;

// The greatest form of way (FOW).
const GREATEST_FOW: u32 = 7;

// Whether two steps as the map stores them are 0: they lead nowhere.
fn both_zero(east: u32, north: u32) -> bool
    ensures { result ≡ (eqb east step_added && eqb north step_added) }
{
    east == STEP_ADDED && north == STEP_ADDED
}

// Two steps, from byte `from` on: their sector, and the position after them. That both are 0 is a fault of the north step.
fn read_steps(map: &[u8], from: usize) -> Result<Number, Fault>
    ensures { StepsRead map.now from result }
{
    let east = field(map, from, 0, GREATEST_STEP, Fault::Step)?;
    let north = field(map, east.next, 0, GREATEST_STEP, Fault::Step)?;
    if both_zero(east.value, north.value) {
        return Err(Fault::Step);
    }
    Ok(Number {
        value: sector(east.value, north.value),
        next: north.next,
    })
}

// What a line has besides its ends, for the line whose numbers start at `at`: the position after it.
fn read_attributes(map: &[u8], from: usize, work: &mut [u32], at: usize) -> Result<usize, Fault>
    requires { at + line_size ≤ length work.old }
    ensures { AttributesRead map.now from at work.old work.new result }
{
    let why = Fault::Line;
    let len = field(map, from, 1, GREATEST_LINE_LENGTH, why)?;
    let frc = field(map, len.next, 0, GREATEST_FRC, why)?;
    let fow = field(map, frc.next, 0, GREATEST_FOW, why)?;
    let out = read_steps(map, fow.next)?;
    let back = read_steps(map, out.next)?;
    work[at + 2] = len.value;
    work[at + 3] = frc.value;
    work[at + 4] = fow.value;
    work[at + 5] = out.value;
    work[at + 6] = back.value;
    Ok(back.next)
}

// Line `i` of a map of so many nodes, from byte `from` on: the position after it. Equal ends are a fault of the end node's number.
pub fn read_line(
    map: &[u8],
    from: usize,
    work: &mut [u32],
    i: usize,
    nodes: u32,
) -> Result<usize, Fault>
    requires { (work_length ≤ length work.old) × (i < greatest_line_count) × (1 ≤ nodes) }
    ensures { LineRead map.now from (nodes - 1) i work.old work.new result }
{
    let start = field(map, from, 0, nodes - 1, Fault::Line)?;
    let end = field(map, start.next, 0, nodes - 1, Fault::Line)?;
    if start.value == end.value {
        return Err(Fault::Line);
    }
    let at = LINES + LINE_NUMBERS * i;
    work[at] = start.value;
    work[at + 1] = end.value;
    read_attributes(map, end.next, work, at)
}
