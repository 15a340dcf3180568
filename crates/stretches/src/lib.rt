// A stretch as it is given: its lines on the map, whether it is refused (7 to 9), and what its offsets leave of it.
#![tactic(auto)]

pub mod lines;
pub mod stretch;
