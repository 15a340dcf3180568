// Numbers in groups of seven bits.
ghost use Rattle.std.specs.Prelude.{◌≡◌, ◌≤◌, length, drop};
ghost use Rattle.model.specs.Work.{placed};
ghost use Rattle.model.specs.Number.{number, number_bytes};
ghost use Rattle.buffers.specs.Taken.{taken};

// A number and the position after it.
#[derive(Clone, Copy)]
pub struct Number {
    pub value: u32,
    pub next: usize,
}

// The values of a group. A byte from here on says that another group follows.
const GROUP: u64 = 128;

// No number has more groups.
const MOST_GROUPS: usize = 5;

// The number at byte `from`, if there is one.
pub fn number_at(map: &[u8], from: usize) -> Option<Number>
    ensures { taken map.now result ≡ number (drop from map.now) }
{
    let mut at = from;
    let mut weight: u64 = 1;
    let mut value: u64 = 0;
    for i in 0..MOST_GROUPS {
        let b = u64::from(*map.get(at)?);
        at += 1;
        if b < GROUP {
            if b == 0 && weight != 1 {
                return None;
            }
            let x = u32::try_from(value + b * weight).ok()?;
            return Some(Number { value: x, next: at });
        }
        value += (b - GROUP) * weight;
        weight *= GROUP;
    }
    None
}

// Puts a number at the start of `bytes`, in its shortest form: how many bytes it takes.
pub fn put_number(bytes: &mut [u8], number: u32) -> usize
    requires { 5 ≤ length bytes.old }
    ensures { (result ≡ length (number_bytes number)) × (result ≤ 5) × (bytes.new ≡ placed (number_bytes number) bytes.old) }
{
    let mut rest = u64::from(number);
    for i in 0..MOST_GROUPS {
        if rest < GROUP {
            bytes[i] = rest as u8;
            return i + 1;
        }
        bytes[i] = (rest % GROUP + GROUP) as u8;
        rest /= GROUP;
    }
    MOST_GROUPS
}
