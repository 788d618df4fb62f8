//! States that show why a check is refused: the older set writes such a state and the newer one
//! refuses it. Two candidates are tried.
#![tactic(auto)]

mod candidates;
mod finding;
mod raising;
mod room;
mod second;
mod trying;

pub use finding::{Finding, counter};
