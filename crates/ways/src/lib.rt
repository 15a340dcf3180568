// What a search back from a terminus has found: the ways of least length from a line to it. The search went along the mirrored map; here the ways are
// those of the map itself.
#![tactic(auto)]

ghost use Rattle.work_area.specs.Area.{Held};
ghost use Rattle.work_area.specs.Mirror.{mirror};
ghost use Rattle.model.specs.Map.{greatest_line_count, Map};
ghost use Rattle.model.specs.Work.{work_length};
ghost use Rattle.way_lengths.specs.declared.Terminus.{Terminus};
ghost use Rattle.search_cells.specs.Area.{Searched, predecessor, lines_from};
ghost use Rattle.std.specs.Prelude.{◌≡◌, ℕ, ◌-◌, ◌≤◌, ◌<◌, length};
ghost use Rattle.model.specs.Lines.{Connected};
ghost use Rattle.ways.specs.Told.{Told};

use buffers::wide;
use search_cells::cells::{SEVERAL, length_to, predecessor_at};

// The ways of least length within the limit: none, several, with their length, or one, with its last line, its length and its count of lines.
#[derive(Clone, Copy)]
pub enum Ways {
    Nothing,
    Several(u32),
    One(usize, u32, usize),
}

// The ways from line `first` to the terminus that was searched from.
pub fn ways_from(work: &[u32], lines: usize, first: usize, limit: u32) -> Ways
    requires first_lt_lines { first < lines }
    requires by_index { (m : Map) × (c : ℕ) × (to : Terminus) × Searched (mirror m) lines c to limit work.now }
    ensures { (m : Map) → (c : ℕ) → (to : Terminus) → Searched (mirror m) lines c to limit work.now
        → Told m lines c first to limit work.now result }
{
    let length = length_to(work, first);
    if limit < length {
        return Ways::Nothing;
    }
    let mut at = first;
    let mut count: usize = 1;
    let mut x = predecessor_at(work, at);
    while 0 < x {
        if SEVERAL <= x {
            return Ways::Several(length);
        }
        at = wide(x - 1);
        count += 1;
        x = predecessor_at(work, at);
    }
    Ways::One(at, length, count)
}

// The line behind line `l` on a way. The last line has none, and what is given for it means nothing.
fn line_behind(work: &[u32], l: usize) -> usize
    requires { (l < greatest_line_count) × (work_length ≤ length work.now) }
    ensures { result ≡ predecessor work.now l - 1 }
{
    wide(predecessor_at(work, l)).saturating_sub(1)
}

// Writes the lines of a way into `out`. The way begins with line `first` and has as many lines as `out` holds numbers.
pub fn write_lines(work: &[u32], first: usize, out: &mut [u32])
    requires { (m : Map) × (lines : ℕ) × Held work.now lines m × Connected m (lines_from work.now first (length out.old)) }
    ensures { out.new ≡ lines_from work.now first (length out.old) }
{
    let mut at = first;
    for number in out.iter_mut() {
        *number = at as u32;
        at = line_behind(work, at);
    }
}
