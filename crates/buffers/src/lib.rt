// Buffers and numbers, for every crate above: parts filled and copied, numbers of seven bits, and numbers of two, three and four bytes.
#![tactic(auto)]

ghost use Rattle.model.specs.Work.{placed};
ghost use Rattle.std.specs.Prelude.{◌≡◌, ◌+◌, ◌≤◌, ◌<◌, length};
ghost use Rattle.buffers.specs.Kept.{Filled};

pub mod bytes;
pub mod number;
pub mod words;

// `x` in 64 bits.
pub fn wide(x: u32) -> usize
    ensures { (result ≡ x) × (result < 4_294_967_296) }
{
    x as usize
}

// Puts `x` at the `count` numbers from `base` on.
pub fn fill(buffer: &mut [u32], base: usize, count: usize, x: u32)
    requires { base + count ≤ length buffer.old }
    ensures { Filled base count x buffer.old buffer.new }
{
    buffer[base..base + count].fill(x);
}

// Writes `from` into `into`, from its start on.
#[tactic(auto, unfolding(model::specs::Work::placed))]
pub fn copy<T: Copy>(from: &[T], into: &mut [T])
    requires { length from.now ≤ length into.old }
    ensures { into.new ≡ placed from.now into.old }
{
    into[..from.len()].copy_from_slice(from);
}
