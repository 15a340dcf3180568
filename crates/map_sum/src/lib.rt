// The sum of a map's bytes, which stands in the front of a message (paper 02, W10).
#![tactic(auto)]

ghost use Rattle.std.specs.Prelude.{◌≡◌, ◌+◌, ◌%◌, ◌^◌, ◌≤◌, ◌<◌, pos, nat_abs, ◌+ℤ◌, ◌*ℤ◌, length, drop};
ghost use Rattle.model.specs.Front.{sum_modulus, summed, map_sum};
ghost use Rattle.map_sum.specs.Blocks.{dot, powers, low_weights, high_weights};

use crate::weights::{BLOCK, HIGH, LOW};

mod weights;

const SUM_FACTOR: u64 = 257;

const SUM_MODULUS: u64 = 4_294_967_291;

// 257 to the power of 64, modulo the modulus.
const BLOCK_FACTOR: u64 = 1_271_665_609;

// A multiple of the modulus, 8,192 times it. The negative weights of a block take less than it from the block's sum.
const ABOVE: i64 = 35_184_372_047_872;

// A sum of weighed bytes and a byte more. The sum of a block has at most 64 products of at most 255 * 32,768, which fits.
fn weighed(sum: i32, byte: u8, weight: i16) -> i32
    requires { nat_abs sum ≤ 526_417_920 }
    ensures { (result ≡ sum +ℤ pos byte *ℤ weight) × (nat_abs result ≤ nat_abs sum + 8_355_840) }
{
    sum + i32::from(byte) * i32::from(weight)
}

// A block's sum out of those by the two parts of the weights, and a multiple of the modulus so that it is not negative.
fn joined(high: i32, low: i32) -> u64
    requires { (nat_abs high ≤ 534_773_760) × (nat_abs low ≤ 534_773_760) }
    ensures { (pos result ≡ pos 65_536 *ℤ high +ℤ low +ℤ pos 35_184_372_047_872) × (result < 2 ^ 47) }
{
    (65_536 * i64::from(high) + i64::from(low) + ABOVE) as u64
}

// The sum of the block that starts at byte `at`, up to a multiple of the modulus.
// The weights come from the caller, since a constant array is made anew wherever it is named.
fn block_sum(map: &[u8], at: usize, low: &[i16; BLOCK], high: &[i16; BLOCK]) -> u64
    requires { (at + 64 ≤ length map.now) × (low.now ≡ low_weights) × (high.now ≡ high_weights) }
    ensures { (result % sum_modulus ≡ dot (drop at map.now) (powers 64) % sum_modulus) × (result < 2 ^ 47) }
{
    let mut low_sum: i32 = 0;
    let mut high_sum: i32 = 0;
    for i in 0..BLOCK {
        low_sum = weighed(low_sum, map[at + i], low[i]);
        high_sum = weighed(high_sum, map[at + i], high[i]);
    }
    joined(high_sum, low_sum)
}

// The sum of the bytes from `from` on, where `start` is that of the bytes before.
fn rest_sum(map: &[u8], from: usize, start: u64) -> u32
    requires { (from ≤ length map.now) × (start < sum_modulus) }
    ensures { result ≡ summed start (drop from map.now) }
{
    let mut sum = start;
    for byte in &map[from..] {
        sum = (sum * SUM_FACTOR + u64::from(*byte)) % SUM_MODULUS;
    }
    sum as u32
}

// The sum of a map's bytes: block by block, and the odd bytes behind the last block one by one.
pub fn map_sum(map: &[u8]) -> u32
    ensures { result ≡ map_sum map.now }
{
    let low = LOW;
    let high = HIGH;
    let mut sum: u64 = 0;
    let blocks = map.len() / BLOCK;
    for i in 0..blocks {
        sum = (sum * BLOCK_FACTOR + block_sum(map, i * BLOCK, &low, &high)) % SUM_MODULUS;
    }
    rest_sum(map, blocks * BLOCK, sum)
}
