// A reference taken apart: its bytes and their form, the nodes of its points on the map, and its legs.
#![tactic(auto)]

pub mod leg;
pub mod node;
pub mod points;
pub mod reference;
