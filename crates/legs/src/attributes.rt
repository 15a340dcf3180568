// Whether a line has the attributes that a point gives: FRC, FOW and its sector there.
ghost use Rattle.work_area.specs.Area.{line_size, Held};
ghost use Rattle.model.specs.Map.{greatest_line_count, Map};
ghost use Rattle.model.specs.Work.{work_length};
ghost use Rattle.std.specs.Prelude.{◌≡◌, ◌≤◌, ◌<◌, length};
ghost use Rattle.model.specs.Lines.{leaving, arriving};
ghost use Rattle.buffers.specs.Decides.{Decides};
ghost use Rattle.fields.specs.Leg.{attributes_in};
ghost use Rattle.legs.specs.Verdict.{attributes_at};

use fields::leg::Attributes;
use work_area::{FOW, FRC, SECTOR_BACK, SECTOR_OUT, field};

// Whether line `l` has these attributes, by its number `side`: the sector out or back.
#[tactic(auto, unfolding(crate::specs::Verdict::attributes_at, fields::specs::Leg::attributes_in))]
fn has_attributes(work: &[u32], l: usize, side: usize, a: Attributes) -> bool
    requires { (l < greatest_line_count) × (side < line_size) × (work_length ≤ length work.now) }
    ensures { Decides (attributes_at work.now l side ≡ attributes_in a) result }
{
    field(work, l, FRC) == a.frc && field(work, l, FOW) == a.fow && field(work, l, side) == a.sector
}

// Whether line `l` has these attributes as seen from its start node.
pub fn leaves_as(work: &[u32], lines: usize, l: usize, a: Attributes) -> bool
    requires l_lt_lines { l < lines }
    requires held { (m : Map) × Held work.now lines m }
    ensures { (m : Map) → Held work.now lines m → Decides (leaving m l ≡ attributes_in a) result }
{
    has_attributes(work, l, SECTOR_OUT, a)
}

// Whether line `l` has these attributes as seen from its end node.
pub fn arrives_as(work: &[u32], lines: usize, l: usize, a: Attributes) -> bool
    requires l_lt_lines { l < lines }
    requires held { (m : Map) × Held work.now lines m }
    ensures { (m : Map) → Held work.now lines m → Decides (arriving m l ≡ attributes_in a) result }
{
    has_attributes(work, l, SECTOR_BACK, a)
}
