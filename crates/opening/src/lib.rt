// A map opened for a call: read from its bytes into the work area and made ready for searches, or refused. Every entry opens its map here.
#![tactic(auto)]

ghost use Rattle.std.specs.Prelude.{◌≤◌, length};
ghost use Rattle.model.specs.Work.{work_length};
ghost use Rattle.opening.specs.Opened.{MapOpened};

use depot_map::read_map;
use model::Refusal;
use search_cells::adjacency::link;

// The counts of nodes and lines of a map that is ready.
#[derive(Clone, Copy)]
pub struct Opened {
    pub nodes: u32,
    pub lines: usize,
}

// Opens the map of these bytes.
pub fn open_map(map: &[u8], work: &mut [u32]) -> Result<Opened, Refusal>
    requires { work_length ≤ length work.old }
    ensures { MapOpened map.now work.old work.new result }
{
    let count = read_map(map, work)?;
    let lines = count.lines as usize;
    link(work, lines);
    Ok(Opened {
        nodes: count.nodes,
        lines,
    })
}
