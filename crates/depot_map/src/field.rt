// A number of the map, held to its range.
ghost use Rattle.std.specs.Prelude.{◌≡◌};
ghost use Rattle.model.specs.Refusal.{refusal_of};
ghost use Rattle.depot_map.specs.Part.{fault_of, FieldRead};

use buffers::number::{Number, number_at};
use model::Refusal;

// Why a number of the map is refused: 2 to 5, or 24. It holds nothing, so that a loop over lines keeps its position in a register.
#[derive(Clone, Copy)]
pub enum Fault {
    Number,
    Count,
    Coordinate,
    Line,
    Step,
}

impl From<Fault> for Refusal {
    ghost from_gives = { λ why r. refusal_of r ≡ fault_of why };

    #[tactic(auto, unfolding(model::specs::Refusal::refusal_of))]
    fn from(why: Fault) -> Refusal {
        match why {
            Fault::Number => Refusal::MapNumber,
            Fault::Count => Refusal::MapCount,
            Fault::Coordinate => Refusal::MapCoordinate,
            Fault::Line => Refusal::MapLine,
            Fault::Step => Refusal::MapStep,
        }
    }
}

// The number at byte `from`, held to the range `low` to `high`, outside of which the map is refused for `why`.
pub fn field(map: &[u8], from: usize, low: u32, high: u32, why: Fault) -> Result<Number, Fault>
    ensures { FieldRead map.now from low high why result }
{
    let Some(x) = number_at(map, from) else {
        return Err(Fault::Number);
    };
    if x.value < low || high < x.value {
        return Err(why);
    }
    Ok(x)
}
