//! The eight rules of description sets as they are worded, and the law that the walk over a set
//! checks exactly these.
#![tactic(auto)]

pub mod laws;
