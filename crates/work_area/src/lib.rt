// The work area: where everything stands in it, how a line's numbers are read, and how it is cleared.
// specs/Area.antt has the same places by name. No other file has an address.
#![tactic(auto)]

ghost use Rattle.std.specs.Prelude.{◌≡◌, ◌+◌, ◌≤◌, ◌<◌, length, get_or};
ghost use Rattle.model.specs.Map.{greatest_line_count};
ghost use Rattle.model.specs.Work.{cleared, work_length};
ghost use Rattle.work_area.specs.Area.{line_size, line_place};

use model::limits::{GREATEST_BAN_COUNT, GREATEST_LINE_COUNT, GREATEST_NODE_COUNT, WORK_LENGTH};

pub mod step;

// How many numbers a node has. The first node's stand at 0.
pub const NODE_NUMBERS: usize = 2;

// The greatest count of nodes, of lines and of banned turns, as counts of numbers in the area.
pub const NODES: usize = GREATEST_NODE_COUNT as usize;

pub const MAP_LINES: usize = GREATEST_LINE_COUNT as usize;

pub const BANS: usize = GREATEST_BAN_COUNT as usize;

// Where the first line's numbers stand, and how many a line has.
pub const LINES: usize = NODE_NUMBERS * NODES;

pub const LINE_NUMBERS: usize = 7;

// Which number of a line is which. Its sectors are found once, while the map is read.
pub const START: usize = 0;

pub const END: usize = 1;

pub const LENGTH: usize = 2;

pub const FRC: usize = 3;

pub const FOW: usize = 4;

pub const SECTOR_OUT: usize = 5;

pub const SECTOR_BACK: usize = 6;

// Behind the map. A number for each line: the length found to it, and its predecessor.
pub const LENGTHS: usize = LINES + LINE_NUMBERS * MAP_LINES;

// The lines that a search goes on from, the nearest first.
pub const QUEUE: usize = LENGTHS + MAP_LINES;

// The adjacency lists: 1 + the last such line for each node, 1 + the next for each line, or 0.
pub const HEADS: usize = QUEUE + MAP_LINES;

pub const NEXT: usize = HEADS + NODES;

// A number for each node: the last two lines with banned turns that a search went on from there. Nothing is promised of it.
pub const LAST_BARRED: usize = NEXT + MAP_LINES;

// Behind the search, the banned turns, mirrored: 1 + the last one from each line, or 0; the second line of each, and 1 + the one before it from the
// same first line, or 0.
pub const BAN_HEADS: usize = LAST_BARRED + NODES;

pub const BAN_SECONDS: usize = BAN_HEADS + MAP_LINES;

pub const BAN_EARLIER: usize = BAN_SECONDS + BANS;

// The cells of searches while a map is read, for the test of equal codes: the codes of each node, the node before it in its bucket, and the last node
// of each bucket.
pub const BUCKETS: usize = 512;

pub const CODES: usize = LINES + LINE_NUMBERS * MAP_LINES;

pub const BUCKET_CHAINS: usize = CODES + NODE_NUMBERS * NODES;

pub const BUCKET_HEADS: usize = BUCKET_CHAINS + NODES;

// Number `k` of line `l`.
pub fn field(work: &[u32], l: usize, k: usize) -> u32
    requires { (l < greatest_line_count) × (k < line_size) × (work_length ≤ length work.now) }
    ensures { result ≡ get_or work.now (line_place l + k) 0 }
{
    work[LINES + LINE_NUMBERS * l + k]
}

// The numbers that a call uses become 0; the rest is kept. No other function clears the area.
pub fn clear(work: &mut [u32])
    requires { work_length ≤ length work.old }
    ensures { work.new ≡ cleared work.old }
{
    work[..WORK_LENGTH].fill(0);
}
