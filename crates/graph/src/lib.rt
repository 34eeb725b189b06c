// Flow graphs: definitions and laws, and the size of the arrays that a graph is laid in.
#![tactic(auto)]

pub const PLACES: usize = 16384;
