// The sector of a line at a node, from the two steps that the map has of it there. What it is, is defined in crates/model/specs/Sector.antt.
// A direction is a complex number, north the real part and east the imaginary one. Only its quadrant and the sizes of its parts are kept, so that no
// number is negative. Every test chooses between two numbers, so that no branch is needed: lines come in all directions, and no processor foretells them.
ghost use Rattle.std.specs.Prelude.{◌≡◌, ◌≤◌};
ghost use Rattle.model.specs.Sector.{step_added, greatest_step, direction, quadrant, sector};
ghost use Rattle.fields.specs.Sector.{later_half, Squared};

use model::limits::STEP_ADDED;

// The sizes of the parts of a direction.
#[derive(Clone, Copy)]
struct Parts {
    real: u64,
    imaginary: u64,
}

// The parts of the square of a direction that has these.
fn square(real: u64, imaginary: u64) -> Parts
    requires { (real ≤ 125_000) × (imaginary ≤ 125_000) }
    ensures { Squared real imaginary result }
{
    Parts {
        real: (real * real).abs_diff(imaginary * imaginary),
        imaginary: 2 * (real * imaginary),
    }
}

// The quadrant of two steps, not both 0, as the map stores them. The west half of the circle has the last two: it starts due south.
#[tactic(auto, using(crate::proofs::Sectors::west_quadrant, crate::proofs::Sectors::east_quadrant))]
fn quadrant_of(east: u32, north: u32) -> u32
    requires { (east ≤ greatest_step) × (north ≤ greatest_step) × (east ≡ step_added → north ≡ step_added → ⊥) }
    ensures { result ≡ quadrant (direction east north) }
{
    let south = (north < STEP_ADDED) as u32;
    if east < STEP_ADDED + south {
        return 3 - south;
    }
    (north <= STEP_ADDED) as u32
}

// 1 in the later half of a quadrant, else 0. In an even quadrant a direction leads ahead by its real part, in an odd one by the imaginary part.
#[tactic(auto, using(crate::proofs::Sectors::later_odd, crate::proofs::Sectors::later_even))]
fn later_half(odd: u32, real: u64, imaginary: u64) -> u32
    ensures { result ≡ later_half odd real imaginary }
{
    if odd == 1 {
        return (imaginary <= real) as u32;
    }
    (real <= imaginary) as u32
}

// The sector of two steps, not both 0, as the map stores them. Squared once, their parts are at most 125,000; those squared need 64 bits.
#[tactic(auto, using(crate::proofs::Sectors::later_small, model::proofs::Sectors::quadrant_few))]
pub fn sector(east: u32, north: u32) -> u32
    requires { (east ≤ greatest_step) × (north ≤ greatest_step) × (east ≡ step_added → north ≡ step_added → ⊥) }
    ensures { result ≡ sector east north }
{
    let quadrant = quadrant_of(east, north);
    let real = (north as u64).abs_diff(STEP_ADDED as u64);
    let imaginary = (east as u64).abs_diff(STEP_ADDED as u64);
    let half = later_half(quadrant % 2, real, imaginary);
    let once = square(real, imaginary);
    let quarter = later_half(half, once.real, once.imaginary);
    let twice = square(once.real, once.imaginary);
    8 * quadrant + 4 * half + 2 * quarter + later_half(quarter, twice.real, twice.imaginary)
}
