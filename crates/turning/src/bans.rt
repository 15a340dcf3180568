// The banned turns turned round: the turn from line `l` into line `k` becomes the one from line `k` into line `l`, with the same number.
ghost use Rattle.std.specs.Prelude.{◌≡◌, List, ◌≤◌, ◌<◌, length, slice_index, EachIndex, SomeIndex};
ghost use Rattle.model.specs.Map.{Turn, greatest_line_count};
ghost use Rattle.model.specs.Work.{work_length};
ghost use Rattle.work_area.specs.Area.{ban_chain, BansHeld};
ghost use Rattle.turning.specs.Bans.{Known, ChainStands, ChainNamed, Paired, FirstsNamed, BansTurned};

use banned_turns::put_ban;
use buffers::wide;
use work_area::{BAN_EARLIER, BAN_HEADS, BAN_SECONDS};

// The greatest of these numbers, or 0 where there is none.
fn greatest(numbers: &[u32]) -> u32
    ensures all { EachIndex numbers.now (λ k. slice_index numbers.now k ≤ result) }
    ensures one { 0 < result → SomeIndex numbers.now (λ k. slice_index numbers.now k ≡ result) }
{
    numbers.iter().copied().max().unwrap_or(0)
}

// How many turns are banned: the last one is the front of a chain.
fn ban_count(work: &[u32], lines: usize) -> usize
    requires { (work_length ≤ length work.now) × (lines ≤ greatest_line_count) }
    ensures { (bans : List Turn) → BansHeld work.now lines bans → Known lines bans → result ≡ length bans }
{
    wide(greatest(&work[BAN_HEADS..BAN_HEADS + lines]))
}

// Stores line `l` with each turn of its chain, in place of the turn before it.
fn name_chain(work: &mut [u32], l: usize, chain: usize)
    requires work_length_in_bounds { (work_length ≤ length work.old) × (l < greatest_line_count) }
    requires chain_stands { (bans : List Turn) × ChainStands bans l work.old × (chain ≡ ban_chain bans l) }
    ensures { (bans : List Turn) → ChainStands bans l work.old → chain ≡ ban_chain bans l
        → ChainNamed bans l work.old work.new }
{
    let mut x = chain;
    while 0 < x {
        let i = BAN_EARLIER + (x - 1);
        x = wide(work[i]);
        work[i] = l as u32;
    }
}

// Stores with each turn its first line, in place of the turn before it, and leaves every chain empty.
fn name_firsts(work: &mut [u32], lines: usize)
    requires { (work_length ≤ length work.old) × (lines ≤ greatest_line_count) × ((bans : List Turn) × BansHeld work.old lines bans) }
    ensures { (bans : List Turn) → BansHeld work.old lines bans → Known lines bans
        → FirstsNamed lines bans work.old work.new }
{
    for l in 0..lines {
        let chain = wide(work[BAN_HEADS + l]);
        name_chain(work, l, chain);
        work[BAN_HEADS + l] = 0;
    }
}

// Puts each turn into the chain of its second line.
fn put_turned(work: &mut [u32], lines: usize, count: usize)
    requires work_length_in_bounds { (work_length ≤ length work.old) × (lines ≤ greatest_line_count) }
    requires paired { (bans : List Turn) × Paired work.old lines bans × Known lines bans × (count ≡ length bans) }
    ensures { (bans : List Turn) → Paired work.old lines bans → Known lines bans → count ≡ length bans
        → BansTurned lines bans work.old work.new }
{
    for i in 0..count {
        let first = work[BAN_SECONDS + i];
        let second = work[BAN_EARLIER + i];
        put_ban(work, i, first, second);
    }
}

// Turns the banned turns round. Most maps have none.
pub fn turn_bans(work: &mut [u32], lines: usize)
    requires { (work_length ≤ length work.old) × (lines ≤ greatest_line_count)
        × ((bans : List Turn) × BansHeld work.old lines bans × Known lines bans) }
    ensures { (bans : List Turn) → BansHeld work.old lines bans → Known lines bans
        → BansTurned lines bans work.old work.new }
{
    let count = ban_count(work, lines);
    if count == 0 {
        return;
    }
    name_firsts(work, lines);
    put_turned(work, lines, count);
}
