// The banned turns in the work area: those from one line are a chain, the last one first. They are turns of the mirrored map: the turn that is banned
// from line `l` into line `k` of the map stands there as one from line `k` into line `l`, once, however often the map lists it.
#![tactic(auto)]

ghost use Rattle.std.specs.Prelude.{◌≡◌, List, ℕ, ◌≤◌, ◌<◌, length};
ghost use Rattle.model.specs.Map.{Turn, greatest_ban_count, greatest_line_count, fitting};
ghost use Rattle.model.specs.Lines.{turn_among};
ghost use Rattle.model.specs.Work.{work_length};
ghost use Rattle.work_area.specs.Area.{ban_chain, BansHeld};
ghost use Rattle.work_area.specs.Mirror.{mirror_turns};
ghost use Rattle.work_area.specs.Held.{held_lines};
ghost use Rattle.banned_turns.specs.Put.{BanPut};

use buffers::wide;
use work_area::{BAN_EARLIER, BAN_HEADS, BAN_SECONDS, END, START, field};

// Whether there are two such lines, and the second starts where the first ends.
pub fn fits(work: &[u32], lines: u32, first: u32, second: u32) -> bool
    requires { (work_length ≤ length work.now) × (lines ≤ greatest_line_count) }
    ensures { result ≡ fitting (held_lines work.now lines) (record { first = first; second = second }) }
{
    if lines <= first || lines <= second {
        return false;
    }
    field(work, wide(first), END) == field(work, wide(second), START)
}

// Puts banned turn `i` at the front of the chain of its first line.
pub fn put_ban(work: &mut [u32], i: usize, first: u32, second: u32)
    requires { (work_length ≤ length work.old) × (i < greatest_ban_count) × (first < greatest_line_count) }
    ensures { BanPut i (record { first = first; second = second }) work.old work.new }
{
    let head = BAN_HEADS + wide(first);
    let last = work[head];
    work[BAN_SECONDS + i] = second;
    work[BAN_EARLIER + i] = last;
    work[head] = (i + 1) as u32;
}

// The chain of line `l`: 1 + its first banned turn, or 0 where there is none.
pub fn bans_from(work: &[u32], lines: usize, l: usize) -> usize
    requires { (l < lines) × (lines ≤ greatest_line_count) × (work_length ≤ length work.now) }
    ensures { (bans : List Turn) → BansHeld work.now lines bans → result ≡ ban_chain bans l }
{
    wide(work[BAN_HEADS + l])
}

// Whether a chain has the turn into line `k`.
pub fn in_chain(work: &[u32], lines: usize, chain: usize, k: usize) -> bool
    requires work_length_in_bounds { work_length ≤ length work.now }
    requires by_index { (bans : List Turn) × (l : ℕ) × BansHeld work.now lines bans × (chain ≡ ban_chain bans l) }
    ensures { (bans : List Turn) (l : ℕ) → BansHeld work.now lines bans → chain ≡ ban_chain bans l → result ≡ turn_among bans l k }
{
    let mut x = chain;
    while 0 < x {
        if wide(work[BAN_SECONDS + (x - 1)]) == k {
            return true;
        }
        x = wide(work[BAN_EARLIER + (x - 1)]);
    }
    false
}

// Whether the turn from line `l` into line `k` of the map is banned: it stands in the chain of line `k`, mirrored.
pub fn banned(work: &[u32], lines: usize, l: usize, k: usize) -> bool
    requires { (k < lines) × (lines ≤ greatest_line_count) × (work_length ≤ length work.now)
        × ((bans : List Turn) × BansHeld work.now lines (mirror_turns bans)) }
    ensures { (bans : List Turn) → BansHeld work.now lines (mirror_turns bans) → result ≡ turn_among bans l k }
{
    in_chain(work, lines, bans_from(work, lines, k), l)
}
