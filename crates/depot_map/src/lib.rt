// The depot map, read from its bytes into the lent work area. The stages are those of `decode` in crates/model/specs/Map.antt,
// each called by the one before it.
#![tactic(auto)]

ghost use Rattle.std.specs.Prelude.{◌≤◌, List, [], length, drop};
ghost use Rattle.model.specs.Map.{Turn, decode_nodes, decode_lines, decode_bans, ended, greatest_node_count, greatest_line_count, greatest_ban_count};
ghost use Rattle.model.specs.Work.{work_length};
ghost use Rattle.work_area.specs.Held.{held_nodes, held_lines};
ghost use Rattle.work_area.specs.Area.{lines_from, codes_from};
ghost use Rattle.depot_map.specs.Bans.{BansTaken};
ghost use Rattle.depot_map.specs.Stage.{Stage};
ghost use Rattle.depot_map.specs.Answer.{MapIsRead};

use ban::{put_fitting, read_ban};
use buffers::fill;
use equal_codes::equal_codes;
use field::{Fault, field};
use line::read_line;
use model::Refusal;
use model::limits::{GREATEST_BAN_COUNT, GREATEST_LINE_COUNT, GREATEST_NODE_COUNT};
use node::read_node;
use work_area::{BAN_HEADS, MAP_LINES};

mod ban;
mod field;
mod line;
mod node;

// The counts of nodes and lines of a map that stands whole in the work area.
#[derive(Clone, Copy)]
pub struct Counts {
    pub nodes: u32,
    pub lines: u32,
}

// The end of the bytes: left-over bytes come last, then equal codes, and then a banned turn that does not fit its lines.
fn finish(
    map: &[u8],
    at: usize,
    work: &mut [u32],
    counts: Counts,
    fitting: bool,
) -> Result<Counts, Refusal>
    requires { (work_length ≤ length work.old) × (counts.nodes ≤ greatest_node_count) × (counts.lines ≤ greatest_line_count) }
    ensures { (bans : List Turn) → BansTaken work.old counts.lines bans fitting
        → Stage (ended (drop at map.now) (held_nodes work.old counts.nodes) (held_lines work.old counts.lines) bans)
        codes_from work.old work.new result }
{
    if at < map.len() {
        return Err(Refusal::MapNumber);
    }
    if equal_codes(work, counts.nodes) {
        return Err(Refusal::EqualCodes);
    }
    if !fitting {
        return Err(Refusal::MapBan);
    }
    Ok(counts)
}

// `count` banned turns, and what follows them.
fn read_bans(
    map: &[u8],
    from: usize,
    work: &mut [u32],
    counts: Counts,
    count: u32,
) -> Result<Counts, Refusal>
    requires { (work_length ≤ length work.old) × (counts.nodes ≤ greatest_node_count) × (counts.lines ≤ greatest_line_count)
        × (count ≤ greatest_ban_count) }
    ensures { Stage (decode_bans count (drop from map.now) (held_nodes work.old counts.nodes) (held_lines work.old counts.lines) [])
        codes_from work.old work.new result }
{
    fill(work, BAN_HEADS, MAP_LINES, 0);
    let mut at = from;
    let mut taken = Some(0);
    for _i in 0..count {
        let ban = read_ban(map, at)?;
        taken = put_fitting(work, taken, counts.lines, ban);
        at = ban.next;
    }
    finish(map, at, work, counts, taken.is_some())
}

// The count of banned turns, after the lines, and what follows it.
fn count_bans(map: &[u8], from: usize, work: &mut [u32], counts: Counts) -> Result<Counts, Refusal>
    requires { (work_length ≤ length work.old) × (counts.nodes ≤ greatest_node_count) × (counts.lines ≤ greatest_line_count) }
    ensures { Stage (decode_lines 0 (drop from map.now) (held_nodes work.old counts.nodes) (held_lines work.old counts.lines))
        codes_from work.old work.new result }
{
    let count = field(map, from, 0, GREATEST_BAN_COUNT, Fault::Count)?;
    read_bans(map, count.next, work, counts, count.value)
}

// `count` lines, and what follows them.
fn read_lines(
    map: &[u8],
    from: usize,
    work: &mut [u32],
    nodes: u32,
    count: u32,
) -> Result<Counts, Refusal>
    requires { (work_length ≤ length work.old) × (1 ≤ nodes) × (nodes ≤ greatest_node_count) × (count ≤ greatest_line_count) }
    ensures { Stage (decode_lines count (drop from map.now) (held_nodes work.old nodes) [])
        lines_from work.old work.new result }
{
    let mut at = from;
    for i in 0..count as usize {
        at = read_line(map, at, work, i, nodes)?;
    }
    let counts = Counts {
        nodes,
        lines: count,
    };
    count_bans(map, at, work, counts)
}

// The count of lines, after the nodes, and what follows it.
fn count_lines(map: &[u8], from: usize, work: &mut [u32], nodes: u32) -> Result<Counts, Refusal>
    requires { (work_length ≤ length work.old) × (1 ≤ nodes) × (nodes ≤ greatest_node_count) }
    ensures { Stage (decode_nodes 0 (drop from map.now) (held_nodes work.old nodes))
        lines_from work.old work.new result }
{
    let lines = field(map, from, 1, GREATEST_LINE_COUNT, Fault::Count)?;
    read_lines(map, lines.next, work, nodes, lines.value)
}

// `count` nodes, and what follows them.
fn read_nodes(map: &[u8], from: usize, work: &mut [u32], count: u32) -> Result<Counts, Refusal>
    requires { (work_length ≤ length work.old) × (1 ≤ count) × (count ≤ greatest_node_count) }
    ensures { Stage (decode_nodes count (drop from map.now) []) 0 work.old work.new result }
{
    let mut at = from;
    for i in 0..count as usize {
        at = read_node(map, at, work, i)?;
    }
    count_lines(map, at, work, count)
}

// The map of these bytes, into the work area; or why they are refused.
pub fn read_map(map: &[u8], work: &mut [u32]) -> Result<Counts, Refusal>
    requires { work_length ≤ length work.old }
    ensures { MapIsRead map.now work.old work.new result }
{
    let nodes = field(map, 0, 2, GREATEST_NODE_COUNT, Fault::Count)?;
    read_nodes(map, nodes.next, work, nodes.value)
}
