// The search for a point's node among the nodes of the map.
ghost use Rattle.std.specs.Prelude.{◌≡◌, ◌≤◌, length};
ghost use Rattle.model.specs.Map.{Node, greatest_node_count};
ghost use Rattle.model.specs.Work.{work_length};
ghost use Rattle.references.specs.Node.{passes, Finds};

use fields::coordinate::{latitude_code, longitude_code, moved};
use work_area::NODE_NUMBERS;

// What tells the node: its two codes, or its longitude, the latitude of another node and the difference from there.
#[derive(Clone, Copy)]
pub enum Sought {
    Codes(u32, u32),
    Moved(u32, u32, u32),
}

// Whether the node with these stored coordinates is the one.
fn is_sought(sought: Sought, lon: u32, lat: u32) -> bool
    ensures { (a : Node) → a.lon ≡ lon → a.lat ≡ lat → result ≡ passes sought a }
{
    match sought {
        Sought::Codes(lon_code, lat_code) => longitude_code(lon) == lon_code
            && latitude_code(lat) == lat_code,
        Sought::Moved(at_lon, from_lat, by_lat) => lon == at_lon && moved(from_lat, by_lat, lat),
    }
}

// The number of the first of the map's nodes that is the one sought, or none.
pub fn find(work: &[u32], nodes: u32, sought: Sought) -> Option<u32>
    requires { (work_length ≤ length work.now) × (nodes ≤ greatest_node_count) }
    ensures { Finds work.now nodes sought result }
{
    for v in 0..nodes {
        let at = NODE_NUMBERS * v as usize;
        if is_sought(sought, work[at], work[at + 1]) {
            return Some(v);
        }
    }
    None
}
