// Lines of a stretch and the nodes at their ends, as the map in the work area has them.
ghost use Rattle.work_area.specs.Area.{line_size, node_numbers, line_numbers, Held};
ghost use Rattle.model.specs.Map.{Map};
ghost use Rattle.std.specs.Prelude.{◌≡◌, ◌-◌, ◌≤◌, ◌<◌, length, get_or, take, drop};
ghost use Rattle.model.specs.Lines.{line_at, node_at, total, lowest};
ghost use Rattle.fields.specs.Leg.{attributes_in};
ghost use Rattle.stretches.specs.Known.{Known};
ghost use Rattle.stretches.specs.Attributes.{attributes_by};

use buffers::wide;
use fields::leg::Attributes;
use work_area::{FOW, FRC, LENGTH, NODE_NUMBERS, field};

// Lines, one after another: a stretch, or a part of one. Each number is that of one of the map's `lines` lines.
#[derive(Clone, Copy)]
pub struct LineList<'a> {
    pub numbers: &'a [u32],
    pub lines: usize,
    pub ghost known: { Known lines numbers.now },
}

impl<'a> LineList<'a> {
    // The lines from position `i` up to position `j`.
    pub fn part(self, i: usize, j: usize) -> LineList<'a>
        requires { (i ≤ j) × (j ≤ length self.numbers.now) }
        ensures { (result.numbers.now ≡ take (j - i) (drop i self.entry.numbers.now)) × (result.lines ≡ self.entry.lines) }
    {
        LineList {
            numbers: &self.numbers[i..j],
            lines: self.lines,
        }
    }

    // Number `k` of the line that stands at `i`.
    pub fn field_of(self, work: &[u32], i: usize, k: usize) -> u32
        requires bounds { (i < length self.numbers.now) × (k < line_size) }
        requires held { (m : Map) × Held work.now self.lines m }
        ensures { (m : Map) → Held work.now self.entry.lines m
            → result ≡ get_or (line_numbers (line_at m (get_or self.entry.numbers.now i 0))) k 0 }
    {
        field(work, wide(self.numbers[i]), k)
    }

    // The length of the lines, in 64 bits.
    pub fn total_length(self, work: &[u32]) -> usize
        requires few { length self.numbers.now ≤ 64 }
        requires held { (m : Map) × Held work.now self.lines m }
        ensures { (m : Map) → Held work.now self.entry.lines m → result ≡ total m self.entry.numbers.now }
    {
        let mut sum: usize = 0;
        for i in 0..self.numbers.len() {
            sum += wide(self.field_of(work, i, LENGTH));
        }
        sum
    }

    // The lowest class of the lines, which is the greatest FRC.
    pub fn lowest_class(self, work: &[u32]) -> u32
        requires held { (m : Map) × Held work.now self.lines m }
        ensures { (m : Map) → Held work.now self.entry.lines m → result ≡ lowest m self.entry.numbers.now }
    {
        let mut class: u32 = 0;
        for i in 0..self.numbers.len() {
            class = class.max(self.field_of(work, i, FRC));
        }
        class
    }

    // FRC, FOW and a sector of the line at `i`, by its number `side`: the sector out or back.
    pub fn attributes_of(self, work: &[u32], i: usize, side: usize) -> Attributes
        requires bounds { (i < length self.numbers.now) × (side < line_size) }
        requires held { (m : Map) × Held work.now self.lines m }
        ensures { (m : Map) → Held work.now self.entry.lines m
            → attributes_in result ≡ attributes_by (line_at m (get_or self.entry.numbers.now i 0)) side }
    {
        let frc = self.field_of(work, i, FRC);
        let fow = self.field_of(work, i, FOW);
        let sector = self.field_of(work, i, side);
        Attributes { frc, fow, sector }
    }

    // The start or end node of the line at `i`, by its number `k`.
    pub fn node_of(self, work: &[u32], i: usize, k: usize) -> usize
        requires bounds { (i < length self.numbers.now) × (k < 2) }
        requires held { (m : Map) × Held work.now self.lines m }
        ensures { (m : Map) → Held work.now self.entry.lines m
            → (result ≡ get_or (line_numbers (line_at m (get_or self.entry.numbers.now i 0))) k 0) × (result < length m.nodes) }
    {
        wide(self.field_of(work, i, k))
    }
}

// Number `k` of node `v`: its longitude or its latitude.
pub fn coordinate(work: &[u32], lines: usize, v: usize, k: usize) -> u32
    requires { (m : Map) × Held work.now lines m × (v < length m.nodes) × (k < 2) }
    ensures { (m : Map) → Held work.now lines m → v < length m.nodes
        → result ≡ get_or (node_numbers (node_at m v)) k 0 }
{
    work[NODE_NUMBERS * v + k]
}
