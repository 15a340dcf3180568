// Numbers of four bytes each, low byte first.
ghost use Rattle.std.specs.Prelude.{◌≡◌, ◌+◌, ◌*◌, ◌≤◌, [], ◌∷◌, ◌++◌, length, take, drop};
ghost use Rattle.model.specs.Work.{placed};
ghost use Rattle.model.specs.Host.{words, word_bytes};

// How many bytes a number has.
pub const WORD_BYTES: usize = 4;

// The number at byte `at`.
#[tactic(auto, using(crate::proofs::LineBytes::word_of))]
pub fn word_at(bytes: &[u8], at: usize) -> u32
    requires { at + 4 ≤ length bytes.now }
    ensures { words (take 4 (drop at bytes.now)) ≡ result ∷ [] }
{
    let low = u32::from(bytes[at]) + 256 * u32::from(bytes[at + 1]);
    low + 65_536 * u32::from(bytes[at + 2]) + 16_777_216 * u32::from(bytes[at + 3])
}

// Puts a number at byte `at`.
fn put_word(bytes: &mut [u8], at: usize, number: u32)
    requires { at + 4 ≤ length bytes.old }
    ensures { bytes.new ≡ take at bytes.old ++ (word_bytes (number ∷ []) ++ drop (at + 4) bytes.old) }
{
    bytes[at] = (number % 256) as u8;
    bytes[at + 1] = (number / 256 % 256) as u8;
    bytes[at + 2] = (number / 65_536 % 256) as u8;
    bytes[at + 3] = (number / 16_777_216 % 256) as u8;
}

// Puts numbers at the start of `bytes`.
pub fn put_words(numbers: &[u32], bytes: &mut [u8])
    requires { length numbers.now * 4 ≤ length bytes.old }
    ensures { bytes.new ≡ placed (word_bytes numbers.now) bytes.old }
{
    for (i, number) in numbers.iter().enumerate() {
        put_word(bytes, i * WORD_BYTES, *number);
    }
}

// Takes numbers from `bytes`, as many as both have.
pub fn take_words(bytes: &[u8], numbers: &mut [u32]) -> usize
    ensures { (result ≤ length numbers.old)
        × (take result numbers.new ≡ take (length numbers.old) (words bytes.now)) }
{
    let n = (bytes.len() / WORD_BYTES).min(numbers.len());
    for i in 0..n {
        numbers[i] = word_at(bytes, i * WORD_BYTES);
    }
    n
}
