//! What the units before a fault are: those with which some stream begins, without the set's
//! validations.
#![tactic(auto)]

pub mod laws;
