// What stands in the cells of searches, and the functions that change it: the adjacency lists, the list of the lines that a search has reached, and the
// queue of those that it goes on from. A search goes along the mirrored map, on which every line leads from its end to its start.
#![tactic(auto)]

pub mod adjacency;
pub mod cells;
pub mod list;
mod nearest;
