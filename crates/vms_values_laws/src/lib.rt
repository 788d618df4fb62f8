//! The laws of reading values texts: what is read of a text under a set is what the set's lines and
//! elements mean by it.
#![tactic(auto)]

pub mod laws;
