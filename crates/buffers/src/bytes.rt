// Numbers of 16 and of 24 bits in bytes, high byte first.
ghost use Rattle.std.specs.Prelude.{◌≡◌, ◌+◌, ◌≤◌, ◌<◌, ◌*◌, ◌-◌, ◌++◌, [], ◌∷◌, length, take, drop};
ghost use Rattle.model.specs.Reference.{at2, at3, bytes2, bytes3};
ghost use Rattle.buffers.specs.Placed.{put_at};

// Bytes are copied as all values are. Who knows it by this name keeps it.
pub use crate::copy;

// The number of 16 bits at byte `i`.
#[tactic(auto, unfolding(model::specs::Reference::at2))]
pub fn at2(bytes: &[u8], i: usize) -> u32
    requires { i + 2 ≤ length bytes.now }
    ensures { (result ≡ at2 bytes.now i) × (result < 65_536) }
{
    u32::from(bytes[i]) * 256 + u32::from(bytes[i + 1])
}

// The number of 24 bits at byte `i`.
#[tactic(auto, unfolding(model::specs::Reference::at3))]
pub fn at3(bytes: &[u8], i: usize) -> u32
    requires { i + 3 ≤ length bytes.now }
    ensures { (result ≡ at3 bytes.now i) × (result < 16_777_216) }
{
    u32::from(bytes[i]) * 65_536 + at2(bytes, i + 1)
}

// The low 16 bits of `x` go to byte `i` and the next.
#[tactic(auto, using(crate::proofs::Stores::two), unfolding(model::specs::Reference::bytes2))]
pub fn put2(bytes: &mut [u8], i: usize, x: u32)
    requires { i + 2 ≤ length bytes.old }
    ensures { bytes.new ≡ take i bytes.old ++ bytes2 x (drop (i + 2) bytes.old) }
{
    bytes[i] = (x / 256 % 256) as u8;
    bytes[i + 1] = (x % 256) as u8;
}

// The low 24 bits of `x` go to byte `i` and the next two.
#[tactic(auto, using(crate::proofs::Stores::three), unfolding(model::specs::Reference::bytes2, model::specs::Reference::bytes3))]
pub fn put3(bytes: &mut [u8], i: usize, x: u32)
    requires { i + 3 ≤ length bytes.old }
    ensures { bytes.new ≡ take i bytes.old ++ bytes3 x (drop (i + 3) bytes.old) }
{
    bytes[i] = (x / 65_536 % 256) as u8;
    bytes[i + 1] = (x / 256 % 256) as u8;
    bytes[i + 2] = (x % 256) as u8;
}

// Puts one byte.
#[tactic(auto, using(crate::proofs::Placing::put_one))]
pub fn put1(bytes: &mut [u8], at: usize, x: u32)
    requires { (x < 256) × (at < length bytes.old) }
    ensures { bytes.new ≡ put_at at (x ∷ []) bytes.old }
{
    bytes[at] = x as u8;
}
