// Coordinates as the map stores them: their codes, and the differences between one point and the next.
ghost use Rattle.std.specs.Prelude.{◌≡◌, ◌≤◌, ◌<◌};
ghost use Rattle.model.specs.Field.{code_size, code};
ghost use Rattle.model.specs.Map.{Node, lon_code, lat_code};
ghost use Rattle.model.specs.Difference.{moved, circle, lon_difference, lon_sum, signed};
ghost use Rattle.fields.specs.Difference.{DifferenceIs};

// What the map adds to a longitude, so that it stores no negative number. It is half a circle.
pub const LONGITUDE_ADDED: u32 = 18_000_000;

// A full circle of longitude.
const CIRCLE: u32 = 36_000_000;

// What it adds to a latitude.
const LATITUDE_ADDED: u32 = 9_000_000;

// The code of a coordinate that is not negative: c × 16,777,216 ÷ 36,000,000 and a half, with both sides of the division doubled.
#[tactic(auto, unfolding(model::specs::Field::code_size))]
fn code_size(c: u64) -> u64
    requires { c < 4_294_967_296 }
    ensures { result ≡ code_size c }
{
    (c * 33_554_432 + 36_000_000) / 72_000_000
}

// The code of a stored coordinate, as 24 bits. A negative coordinate is rounded by its size, and then negated.
#[tactic(auto, unfolding(model::specs::Field::code, model::specs::Field::code_size))]
fn code(half: u32, c: u32) -> u32
    requires { half ≤ 18_000_000 }
    ensures { result ≡ code half c }
{
    if half <= c {
        return code_size((c - half) as u64) as u32;
    }
    let size = code_size((half - c) as u64);
    ((16_777_216 - size) % 16_777_216) as u32
}

// The longitude code of each node with this stored longitude.
#[tactic(auto, unfolding(model::specs::Map::lon_code))]
pub fn longitude_code(lon: u32) -> u32
    ensures { (a : Node) → a.lon ≡ lon → result ≡ lon_code a }
{
    code(LONGITUDE_ADDED, lon)
}

// The latitude code of each node with this stored latitude.
#[tactic(auto, unfolding(model::specs::Map::lat_code))]
pub fn latitude_code(lat: u32) -> u32
    ensures { (a : Node) → a.lat ≡ lat → result ≡ lat_code a }
{
    code(LATITUDE_ADDED, lat)
}

// The difference from one stored coordinate to another as 16 bits, or none where it does not fit them. Sums are in 64 bits, so that every pair of numbers
// is taken.
#[tactic(auto, unfolding(model::specs::Difference::difference))]
pub fn difference(from: u32, to: u32) -> Option<u32>
    ensures { DifferenceIs from to result }
{
    let a = from as u64;
    let b = to as u64;
    if b + 32_768 < a || a + 32_767 < b {
        return None;
    }
    Some(((b + 65_536 - a) % 65_536) as u32)
}

// The difference from one longitude to another, brought round. It is held as a longitude is stored: `LONGITUDE_ADDED` stands for no difference.
#[tactic(auto, unfolding(model::specs::Difference::lon_difference, model::specs::Difference::brought))]
pub fn longitude_difference(from: u32, to: u32) -> u32
    requires { (from < circle) × (to < circle) }
    ensures { result ≡ lon_difference from to }
{
    (to + CIRCLE + LONGITUDE_ADDED - from) % CIRCLE
}

// The longitude `from` plus the difference `by` of 16 bits, which is negative from 32,768 on. The sum is brought round.
#[tactic(auto, unfolding(model::specs::Difference::lon_sum, model::specs::Difference::brought, model::specs::Difference::signed))]
pub fn longitude_sum(from: u32, by: u32) -> u32
    ensures { result ≡ lon_sum from (signed by) }
{
    let sum = from as u64 + CIRCLE as u64 + by as u64;
    if by < 32_768 {
        return (sum % CIRCLE as u64) as u32;
    }
    ((sum - 65_536) % CIRCLE as u64) as u32
}

// Whether `to` is `from` plus the difference `by`, which is negative from 32,768 on.
#[tactic(auto, unfolding(model::specs::Difference::moved))]
pub fn moved(from: u32, by: u32, to: u32) -> bool
    ensures { result ≡ moved from by to }
{
    let sum = from as u64 + by as u64;
    if by < 32_768 {
        return to as u64 == sum;
    }
    to as u64 + 65_536 == sum
}
