// Test cases in a file: parts one after another, each behind its length in two bytes, low byte first.
// What a part means is for the program that reads it.
#![tactic(auto)]

ghost use Rattle.std.specs.Prelude.{◌≡◌, ◌+◌, ◌*◌, ◌-◌, ◌≤◌, ◌<◌, length};
ghost use Rattle.cases.specs.Part.{PartIs, word_at};
ghost use Rattle.cases.specs.Sum.{modulus, added_to, sum_from};

use buffers::words;

// Room for a file of cases. A literal of this size in `main` itself is too large for the checker.
pub fn megabyte() -> [u8; 1048576]
    ensures { 1048576 ≡ length result }
{
    [0; 1048576]
}

// Where a part starts and ends.
#[derive(Clone, Copy)]
pub struct Part {
    pub start: usize,
    pub end: usize,
}

// The part whose length stands at byte `at`, if it is there.
#[tactic(auto, unfolding(crate::specs::Part::size_at))]
pub fn part_at(bytes: &[u8], at: usize) -> Option<Part>
    ensures { PartIs bytes.now at result }
{
    let low = usize::from(*bytes.get(at)?);
    let high = usize::from(*bytes.get(at + 1)?);
    let start = at + 2;
    let size = low + high * 256;
    if bytes.len() - start < size {
        return None;
    }
    Some(Part {
        start,
        end: start + size,
    })
}

// The number of four bytes, low byte first, at byte `at`; 0 where they are not all there.
pub fn word_at(bytes: &[u8], at: usize) -> u32
    ensures { result ≡ word_at bytes.now at }
{
    if bytes.len() <= at {
        return 0;
    }
    if bytes.len() - at < 4 {
        return 0;
    }
    words::word_at(bytes, at)
}

// A sum that tells the numbers and their order: each step takes 257 times the sum so far and adds the number, by the greatest prime below 2^32.
#[tactic(auto, unfolding(crate::specs::Sum::added_to))]
fn added(sum: u64, x: u32) -> u64
    requires { sum < modulus }
    ensures { (result ≡ added_to sum x) × (result < modulus) }
{
    (sum * 257 + u64::from(x)) % 4_294_967_291
}

// The sum over the numbers from `from` up to `to`, on top of `sum`.
pub fn sum_of(numbers: &[u32], from: usize, to: usize, sum: u64) -> u64
    requires { (from ≤ to) × (to ≤ length numbers.now) × (sum < modulus) }
    ensures { (result ≡ sum_from numbers.now from (to - from) sum) × (result < modulus) }
{
    let mut total = sum;
    for i in from..to {
        total = added(total, numbers[i]);
    }
    total
}

// The sum over the first `to` bytes. One function for numbers of either type would be no plainer: its contract would have to name the number that each element is.
pub fn sum_of_bytes(bytes: &[u8], to: usize) -> u64
    requires { to ≤ length bytes.now }
    ensures { (result ≡ sum_from bytes.now 0 to 0) × (result < modulus) }
{
    let mut total: u64 = 0;
    for i in 0..to {
        total = added(total, u32::from(bytes[i]));
    }
    total
}
