// A part of a stretch: the lines from one position to another, with their lowest class and their length.
ghost use Rattle.std.specs.Prelude.{◌≡◌, ◌≤◌, ◌<◌, length};
ghost use Rattle.model.specs.Map.{Map};
ghost use Rattle.model.specs.Reading.{greatest_leg_length};
ghost use Rattle.work_area.specs.Area.{Held};
ghost use Rattle.work_area.specs.Mirror.{mirror};
ghost use Rattle.sole_ways.specs.SoleWays.{none_from, Measures, OneMore};

use stretches::lines::LineList;
use work_area::{FRC, LENGTH};

#[derive(Clone, Copy)]
pub struct Part {
    pub from: usize,
    pub to: usize,
    pub class: u32,
    pub length: u32,
}

// The part from position `i` that has no line yet.
pub fn none_from(i: usize) -> Part
    ensures { result ≡ none_from i }
{
    Part {
        from: i,
        to: i,
        class: 0,
        length: 0,
    }
}

// The part with the next line of the stretch.
pub fn one_more(work: &[u32], stretch: LineList, part: Part) -> Part
    requires bounds { (part.to < length stretch.numbers.now) × (part.length ≤ greatest_leg_length) }
    requires held { (m : Map) × Held work.now stretch.lines m }
    ensures one_more { OneMore part result }
    ensures measures { (m : Map) → Held work.now stretch.entry.lines m → Measures (mirror m) stretch.entry.numbers.now part
        → Measures (mirror m) stretch.entry.numbers.now result }
{
    let frc = stretch.field_of(work, part.to, FRC);
    let length = part.length + stretch.field_of(work, part.to, LENGTH);
    Part {
        from: part.from,
        to: part.to + 1,
        class: part.class.max(frc),
        length,
    }
}
