// A node of the map: its two numbers, from the bytes into the work area.
ghost use Rattle.std.specs.Prelude.{◌≤◌, ◌<◌, length};
ghost use Rattle.model.specs.Work.{work_length};
ghost use Rattle.model.specs.Map.{greatest_node_count};
ghost use Rattle.depot_map.specs.Part.{NodeRead};

use crate::field::{Fault, field};
use work_area::NODE_NUMBERS;

// The greatest longitude as the map stores it.
const GREATEST_LONGITUDE: u32 = 35_999_998;

// The greatest latitude as the map stores it.
const GREATEST_LATITUDE: u32 = 18_000_000;

// Node `i`, from byte `from` on: the position after it.
pub fn read_node(map: &[u8], from: usize, work: &mut [u32], i: usize) -> Result<usize, Fault>
    requires { (work_length ≤ length work.old) × (i < greatest_node_count) }
    ensures { NodeRead map.now from i work.old work.new result }
{
    let lon = field(map, from, 0, GREATEST_LONGITUDE, Fault::Coordinate)?;
    let lat = field(map, lon.next, 0, GREATEST_LATITUDE, Fault::Coordinate)?;
    let at = NODE_NUMBERS * i;
    work[at] = lon.value;
    work[at + 1] = lat.value;
    Ok(lat.next)
}
