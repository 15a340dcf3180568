// The values of a reference's fields: from numbers of the map and of a stretch to the numbers in the bytes, and back.
// All in whole numbers. What each value is, is defined in crates/model/specs.
#![tactic(auto)]

pub mod coordinate;
pub mod leg;
pub mod offset;
pub mod sector;
