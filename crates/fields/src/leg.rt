// A leg as a reference describes it, and the readings found of it; and byte D of a leg.
ghost use Rattle.std.specs.Prelude.{◌≡◌, ◌<◌};
ghost use Rattle.model.specs.Field.{distance};
ghost use Rattle.fields.specs.Leg.{LongestLeg};

use model::limits::{DISTANCE_STEP, GREATEST_LEG_LENGTH};

// Byte D of a length in centimetres.
#[tactic(auto, unfolding(model::specs::Field::distance))]
pub fn distance(length: u32) -> u32
    ensures { result ≡ distance length }
{
    length / DISTANCE_STEP
}

// The greatest length of a leg whose byte D is at most `d`.
#[tactic(auto, unfolding(model::specs::Field::distance))]
pub fn longest_leg(d: u32) -> u32
    ensures { LongestLeg d result }
{
    if d < GREATEST_LEG_LENGTH / DISTANCE_STEP {
        return d * DISTANCE_STEP + (DISTANCE_STEP - 1);
    }
    GREATEST_LEG_LENGTH
}

// What a reference says of a line at a point: FRC, FOW and its sector there.
#[derive(Clone, Copy)]
pub struct Attributes {
    pub frc: u32,
    pub fow: u32,
    pub sector: u32,
}

// A leg between two nodes, as the bytes give it. The last one ends with a line of these attributes, each other with any line.
#[derive(Clone, Copy)]
pub struct Leg {
    pub from: usize,
    pub to: usize,
    pub leaves: Attributes,
    pub lowest: u32,
    pub distance: u32,
    pub arrival: Option<Attributes>,
}

// A reading by its first and last line, its length and its count of lines.
#[derive(Clone, Copy)]
pub struct Reading {
    pub first: usize,
    pub last: usize,
    pub length: u32,
    pub count: usize,
}

// The readings of a leg.
#[derive(Clone, Copy)]
pub enum Verdict {
    Unread,
    One(Reading),
    Several,
}
