// A leg of a reference whose points' nodes are known.
ghost use Rattle.std.specs.Prelude.{◌≡◌, ◌<◌, length};
ghost use Rattle.fields.specs.Leg.{leg_in, arrival_in};
ghost use Rattle.references.specs.Legs.{arrival_at, leg_at};

use crate::reference::{Reference, attributes_at, byte_at};
use buffers::wide;
use fields::leg::{Attributes, Leg};

// The attributes that leg `k` ends with: the last one has those of the last P and R, no other has any.
#[tactic(auto, unfolding(fields::specs::Leg::arrival_in, crate::specs::Legs::arrival_at))]
fn arrival_at(reference: Reference, k: usize) -> Option<Attributes>
    requires { k < reference.points }
    ensures { arrival_in result ≡ arrival_at reference.entry.bytes.now reference.entry.points k }
{
    if k + 1 < reference.points {
        return None;
    }
    let last = Reference::MIDDLE_POINT * reference.points;
    Some(attributes_at(
        reference.bytes,
        Reference::FIRST_P + last,
        Reference::FIRST_P + 1 + last,
    ))
}

// Leg `k`, between the nodes in `places`.
pub fn leg_at(reference: Reference, places: &[u32], k: usize) -> Leg
    requires { (k < reference.points) × (reference.points < length places.now) }
    ensures { leg_in result ≡ leg_at reference.entry.bytes.now reference.entry.points places.now k }
{
    let bytes = reference.bytes;
    let p = Reference::FIRST_P + Reference::MIDDLE_POINT * k;
    let from = wide(places[k]);
    let to = wide(places[k + 1]);
    let leaves = attributes_at(bytes, p, p + 1);
    let lowest = byte_at(bytes, p + 1) / 32;
    let distance = byte_at(bytes, p + 2);
    let arrival = arrival_at(reference, k);
    Leg {
        from,
        to,
        leaves,
        lowest,
        distance,
        arrival,
    }
}
