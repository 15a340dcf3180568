// Where ways begin and end. What a way is, and which are of least length, is defined in specs/Ways.antt; there is no function here.
#![tactic(auto)]

// Where ways begin or end: with a line, or at a node, whatever the line.
#[derive(Clone, Copy)]
pub enum Terminus {
    Line(usize),
    Node(usize),
}
