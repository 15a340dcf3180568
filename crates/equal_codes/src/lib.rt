// Whether two nodes have the same pair of codes. Nodes are put into buckets by their codes, and only those of one bucket are compared.
#![tactic(auto)]

ghost use Rattle.std.specs.Prelude.{◌≡◌, ◌+◌, ◌≤◌, ◌<◌, length};
ghost use Rattle.model.specs.Map.{same_codes, among, greatest_node_count};
ghost use Rattle.model.specs.Work.{work_length};
ghost use Rattle.work_area.specs.Held.{held_node, held_nodes};
ghost use Rattle.work_area.specs.Area.{codes_from, chains_from, buckets};
ghost use Rattle.equal_codes.specs.Codes.{CodedAt, Coded, CodesPut, bucket_at, Chains, InBucket, NoChains, EqualFound};

use buffers::fill;
use fields::coordinate::{latitude_code, longitude_code};
use work_area::{BUCKET_CHAINS, BUCKET_HEADS, BUCKETS, CODES, NODE_NUMBERS};

// The codes of the first `n` nodes, those of node i at CODES + 2 * i.
fn put_codes(work: &mut [u32], n: usize)
    requires { (work_length ≤ length work.old) × (n ≤ greatest_node_count) }
    ensures { CodesPut n work.old work.new }
{
    for i in 0..n {
        let node = NODE_NUMBERS * i;
        let x = longitude_code(work[node]);
        let y = latitude_code(work[node + 1]);
        let at = CODES + NODE_NUMBERS * i;
        work[at] = x;
        work[at + 1] = y;
    }
}

// Whether nodes `i` and `j` have the same codes, which stand in their cells.
fn same_codes(work: &[u32], i: usize, j: usize) -> bool
    requires { (work_length ≤ length work.now) × (i < greatest_node_count) × (j < greatest_node_count) × CodedAt work.now i × CodedAt work.now j }
    ensures { result ≡ same_codes (held_node work.now i) (held_node work.now j) }
{
    let a = CODES + NODE_NUMBERS * i;
    let b = CODES + NODE_NUMBERS * j;
    work[a] == work[b] && work[a + 1] == work[b + 1]
}

// The bucket of node `i`. Any function of its codes would do; this one spreads nodes in a row, and nodes of one longitude, over the buckets.
fn bucket(work: &[u32], i: usize) -> usize
    requires { (work_length ≤ length work.now) × (i < greatest_node_count) }
    ensures { (result ≡ bucket_at work.now i) × (result < buckets) }
{
    let at = CODES + NODE_NUMBERS * i;
    let x = work[at] as usize;
    let y = work[at + 1] as usize;
    (x + x / BUCKETS + 37 * (y + y / BUCKETS)) % BUCKETS
}

// Whether a node before node `j` has its codes. Those of its bucket are asked, the last one first.
fn met_before(work: &[u32], j: usize) -> bool
    requires { (work_length ≤ length work.now) × (j < greatest_node_count) × Coded work.now (j + 1) × Chains work.now j }
    ensures { result ≡ among (held_node work.now j) (held_nodes work.now j) }
{
    let h = bucket(work, j);
    let mut k = work[BUCKET_HEADS + h] as usize;
    while 0 < k {
        let i = k - 1;
        if same_codes(work, j, i) {
            return true;
        }
        k = work[BUCKET_CHAINS + i] as usize;
    }
    false
}

// Node `j` becomes the last one of its bucket.
fn add_to_bucket(work: &mut [u32], j: usize)
    requires { (work_length ≤ length work.old) × (j < greatest_node_count) × Chains work.old j }
    ensures { InBucket j work.old work.new }
{
    let h = bucket(work, j);
    work[BUCKET_CHAINS + j] = work[BUCKET_HEADS + h];
    work[BUCKET_HEADS + h] = (j + 1) as u32;
}

// Every bucket becomes empty.
fn empty_buckets(work: &mut [u32])
    requires { work_length ≤ length work.old }
    ensures { NoChains work.old work.new }
{
    fill(work, BUCKET_HEADS, BUCKETS, 0);
}

// Whether two of the first `n` nodes have the same codes, which stand in their cells.
fn some_met(work: &mut [u32], n: usize) -> bool
    requires { (work_length ≤ length work.old) × (n ≤ greatest_node_count) × Coded work.old n × Chains work.old 0 }
    ensures { EqualFound chains_from n work.old work.new result }
{
    for j in 0..n {
        if met_before(work, j) {
            return true;
        }
        add_to_bucket(work, j);
    }
    false
}

// Whether two nodes have the same pair of codes.
pub fn equal_codes(work: &mut [u32], nodes: u32) -> bool
    requires { (work_length ≤ length work.old) × (nodes ≤ greatest_node_count) }
    ensures { EqualFound codes_from nodes work.old work.new result }
{
    let n = nodes as usize;
    put_codes(work, n);
    empty_buckets(work);
    some_met(work, n)
}
