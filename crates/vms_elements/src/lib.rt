//! One list of a description's elements. Cells, places of paths, slots and the lines of values
//! texts are parts of it.
#![tactic(auto)]

pub mod laws;
