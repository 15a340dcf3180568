// The front of a message (paper 02, W10): the byte count of the map that it is written for, and the sum of the map's bytes.
#![tactic(auto)]

ghost use Rattle.std.specs.Prelude.{◌≡◌, ◌≤◌, ◌<◌, ◌^◌, length};
ghost use Rattle.model.specs.Work.{placed};
ghost use Rattle.model.specs.Front.{front_bytes, same_map};
ghost use Rattle.front.specs.Front.{FrontIs, FrontPut};

use buffers::copy;
use buffers::number::{number_at, put_number};
use map_sum::map_sum;

// Two numbers of at most five bytes.
const MOST_BYTES: usize = 10;

// What stands at the start of a message: a count, a sum, and where the bytes behind them start.
#[derive(Clone, Copy)]
pub struct Front {
    pub count: u32,
    pub sum: u32,
    pub behind: usize,
}

// The front of a message, if it can be read.
pub fn read_front(message: &[u8]) -> Option<Front>
    ensures { FrontIs message.now result }
{
    let count = number_at(message, 0)?;
    let sum = number_at(message, count.next)?;
    Some(Front {
        count: count.value,
        sum: sum.value,
        behind: sum.next.min(message.len()),
    })
}

// Whether a message's front is that of a map.
pub fn same_map(map: &[u8], message: &[u8]) -> bool
    ensures { result ≡ same_map map.now message.now }
{
    let Some(front) = read_front(message) else {
        return false;
    };
    front.count as usize == map.len() && front.sum == map_sum(map)
}

// Puts the front of a map at the start of `made`. The answer is how many bytes it has.
fn make_front(map: &[u8], made: &mut [u8]) -> usize
    requires { (length map.now < 2 ^ 32) × (10 ≤ length made.old) }
    ensures { (result ≡ length (front_bytes map.now)) × (result ≤ 10) × (made.new ≡ placed (front_bytes map.now) made.old) }
{
    let sum = map_sum(map);
    let count = put_number(made, map.len() as u32);
    count + put_number(&mut made[count..], sum)
}

// Puts the front of a map at the start of a buffer, if it fits: how many bytes it has.
pub fn put_front(map: &[u8], buffer: &mut [u8]) -> Option<usize>
    requires { length map.now < 2 ^ 32 }
    ensures { FrontPut map.now buffer.old buffer.new result }
{
    let mut made = [0; MOST_BYTES];
    let count = make_front(map, &mut made);
    if buffer.len() < count {
        return None;
    }
    copy(&made[..count], buffer);
    Some(count)
}
