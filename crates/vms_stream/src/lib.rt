//! What a stream is, which inputs are refused and why, and the judge that decides both. The unit at
//! the front of an input is found in one place; streams with footers and bare streams are covered
//! alike.
#![tactic(auto)]

pub mod laws;
