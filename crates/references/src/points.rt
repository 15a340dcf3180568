// The nodes of a reference's points.
ghost use Rattle.std.specs.Prelude.{◌≡◌, ◌+◌, ◌*◌, ◌≤◌, ◌<◌, length};
ghost use Rattle.model.specs.Map.{greatest_node_count};
ghost use Rattle.model.specs.Work.{work_length};
ghost use Rattle.references.specs.Legs.{PlacesPut, sought_after};

use crate::node::{Sought, find};
use crate::reference::Reference;
use buffers::bytes::{at2, at3};
use fields::coordinate::longitude_sum;
use model::Refusal;
use work_area::NODE_NUMBERS;

// What tells the node of the point after point `k`, whose node is `from`. Its longitude is added up here, once for all nodes that are looked at.
#[tactic(auto, unfolding(crate::specs::Legs::sought_after))]
fn next_sought(bytes: &[u8], work: &[u32], k: usize, from: u32) -> Sought
    requires { (14 + 7 * k ≤ length bytes.now) × (k < 64) × (work_length ≤ length work.now) × (from < greatest_node_count) }
    ensures { result ≡ sought_after bytes.now work.now k from }
{
    let p = Reference::FIRST_P + Reference::MIDDLE_POINT * k;
    let at = NODE_NUMBERS * from as usize;
    let lon = longitude_sum(work[at], at2(bytes, p + 3));
    Sought::Moved(lon, work[at + 1], at2(bytes, p + 5))
}

// Puts the node of each point into `places`, up to the first point that has none: that is refusal 16.
pub fn locate(
    reference: Reference,
    work: &[u32],
    nodes: u32,
    places: &mut [u32],
) -> Result<(), Refusal>
    requires { (work_length ≤ length work.now) × (nodes ≤ greatest_node_count) × (reference.points < length places.old) }
    ensures { PlacesPut reference.entry.bytes.now reference.entry.points work.now nodes places.old places.new result }
{
    let bytes = reference.bytes;
    let first = Sought::Codes(at3(bytes, 1), at3(bytes, 4));
    places[0] = find(work, nodes, first).ok_or(Refusal::NoNode(0))?;
    for k in 0..reference.points {
        let next = next_sought(bytes, work, k, places[k]);
        places[k + 1] = find(work, nodes, next).ok_or(Refusal::NoNode((k + 1) as u32))?;
    }
    Ok(())
}
