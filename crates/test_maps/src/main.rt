// Reads the maps of cases.bin and prints a row for each: the counts of its nodes, lines and different banned turns and a sum over the numbers that the
// work area holds, or the refusal. What it prints is held to what the unrelated implementation says (oracle/pack.py).
#![tactic(auto)]

ghost use Rattle.model.specs.Map.{greatest_line_count};
ghost use Rattle.model.specs.Work.{work_length};
ghost use Rattle.std.specs.Prelude.{◌≤◌, ◌<◌, length};

use buffers::wide;
use cases::sum_of;
use console::{hand_over, print};
use depot_map::read_map;
use model::limits::WORK_LENGTH;
use model::number_of;
use work_area::{BAN_EARLIER, BAN_HEADS, BAN_SECONDS, BANS, LINE_NUMBERS, LINES, NODE_NUMBERS};

// Puts the banned turns into line `l` behind the first `from` numbers of `turns`, two numbers each, each turn once, the one whose first listing is last
// first: how many there are then. They stand mirrored in the work area, in the chain of line `l`.
fn put_chain(work: &[u32], l: usize, turns: &mut [u32], from: usize) -> usize
    requires { (l < greatest_line_count) × (from ≤ length turns.old) × (work_length ≤ length work.now) }
    ensures { result ≤ length turns.old }
{
    let mut n = from;
    let mut x = wide(work[BAN_HEADS + l]);
    while 0 < x {
        // A chain goes back, and its turns are among the map's. One that does not is cut.
        if BANS < x || turns.len() - n < 2 {
            return n;
        }
        turns[n] = work[BAN_SECONDS + (x - 1)];
        turns[n + 1] = l as u32;
        n += 2;
        let earlier = wide(work[BAN_EARLIER + (x - 1)]);
        if x <= earlier {
            return n;
        }
        x = earlier;
    }
    n
}

// Puts the banned turns of all lines, line by line: how many numbers.
fn put_chains(work: &[u32], lines: usize, turns: &mut [u32]) -> usize
    requires { (lines ≤ greatest_line_count) × (work_length ≤ length work.now) }
    ensures { result ≤ length turns.old }
{
    let mut n = 0;
    for l in 0..lines {
        n = put_chain(work, l, turns, n);
    }
    n
}

fn show(rt: &impl Print, map: &[u8], work: &mut [u32])
    requires { work_length ≤ length work.old }
{
    match read_map(map, work) {
        Ok(counts) => {
            let lines = counts.lines as usize;
            let mut turns = [0; 2 * BANS];
            let n = put_chains(work, lines, &mut turns);
            let of_nodes = sum_of(work, 0, NODE_NUMBERS * counts.nodes as usize, 0);
            let of_lines = sum_of(work, LINES, LINES + LINE_NUMBERS * lines, of_nodes);
            print(rt, b"nodes ", counts.nodes as u64);
            print(rt, b" lines ", counts.lines as u64);
            print(rt, b" bans ", (n / 2) as u64);
            print(rt, b" sum ", sum_of(&turns, 0, n, of_lines));
        }
        Err(why) => {
            print(rt, b"refused ", number_of(why) as u64);
        }
    }
    hand_over(rt, b"\n");
}

fn run(rt: &impl Print, bytes: &[u8], work: &mut [u32])
    requires { work_length ≤ length work.old }
{
    let mut at = 0;
    while let Some(part) = cases::part_at(bytes, at) {
        show(rt, &bytes[part.start..part.end], work);
        at = part.end;
    }
}

fn main(rt: HostRuntime) {
    let mut bytes = cases::megabyte();
    let mut work = [0; WORK_LENGTH];
    let n = console::load(&rt, b"cases.bin", &mut bytes);
    run(&rt, &bytes[..n], &mut work);
}
