// The lines turned round: each leads from its end to its start, and has its sectors the other way round.
ghost use Rattle.std.specs.Prelude.{◌≤◌, length};
ghost use Rattle.model.specs.Map.{greatest_line_count};
ghost use Rattle.model.specs.Work.{work_length};
ghost use Rattle.turning.specs.Turned.{EndsSwapped};

use work_area::{END, LINE_NUMBERS, LINES, SECTOR_BACK, SECTOR_OUT, START};

// Swaps the nodes of each line, and its sectors.
pub fn swap_ends(work: &mut [u32], lines: usize)
    requires { (work_length ≤ length work.old) × (lines ≤ greatest_line_count) }
    ensures { EndsSwapped lines work.old work.new }
{
    for l in 0..lines {
        let at = LINES + LINE_NUMBERS * l;
        work.swap(at + START, at + END);
        work.swap(at + SECTOR_OUT, at + SECTOR_BACK);
    }
}
