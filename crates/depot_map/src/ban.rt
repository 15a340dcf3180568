// A banned turn of the map: its two numbers, from the bytes into the work area.
ghost use Rattle.std.specs.Prelude.{◌≤◌, ◌<◌, List, length};
ghost use Rattle.model.specs.Map.{Turn, greatest_ban_count, greatest_line_count};
ghost use Rattle.model.specs.Work.{work_length};
ghost use Rattle.work_area.specs.Area.{BansHeld};
ghost use Rattle.depot_map.specs.Bans.{Below, BansCounted, BanAdded, BanSorted, BanRead};

use crate::field::{Fault, field};
use banned_turns::{bans_from, fits, in_chain, put_ban};

// The greatest number that there is: what the numbers name is asked when the map is read whole.
const GREATEST_NUMBER: u32 = 4_294_967_295;

// A banned turn as the map has it, by the numbers of its two lines, and the position after it.
#[derive(Clone, Copy)]
pub struct Ban {
    pub first: u32,
    pub second: u32,
    pub next: usize,
}

// Puts a banned turn that fits its lines, mirrored, behind `count` others, unless it is one of them: how many there are then.
fn put_once(work: &mut [u32], count: usize, lines: u32, first: u32, second: u32) -> usize
    requires work_length_in_bounds { (work_length ≤ length work.old) × (count < greatest_ban_count) × (lines ≤ greatest_line_count)
        × (first < lines) × (second < lines) }
    requires bans_held { (bans : List Turn) × BansHeld work.old lines bans }
    ensures { BanAdded (record { first = second; second = first }) count lines work.old work.new result }
{
    let n = lines as usize;
    let chain = bans_from(work, n, second as usize);
    if in_chain(work, n, chain, first as usize) {
        return count;
    }
    put_ban(work, count, second, first);
    count + 1
}

// Puts a banned turn if it fits its lines, as all `taken` before it do: how many stand in the work area then. There is no count once one does not fit.
pub fn put_fitting(work: &mut [u32], taken: Option<usize>, lines: u32, ban: Ban) -> Option<usize>
    requires work_length_in_bounds { (work_length ≤ length work.old) × Below greatest_ban_count taken × (lines ≤ greatest_line_count) }
    requires bans_counted { (bans : List Turn) × BansCounted work.old lines bans taken }
    ensures { BanSorted (record { first = ban.first; second = ban.second }) lines taken work.old work.new result }
{
    let count = taken?;
    if !fits(work, lines, ban.first, ban.second) {
        return None;
    }
    Some(put_once(work, count, lines, ban.first, ban.second))
}

// One banned turn more, from byte `from` on.
pub fn read_ban(map: &[u8], from: usize) -> Result<Ban, Fault>
    ensures { BanRead map.now from result }
{
    let first = field(map, from, 0, GREATEST_NUMBER, Fault::Number)?;
    let second = field(map, first.next, 0, GREATEST_NUMBER, Fault::Number)?;
    Ok(Ban {
        first: first.value,
        second: second.value,
        next: second.next,
    })
}
