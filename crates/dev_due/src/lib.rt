//! When a board next shows something while only time passes.
//!
//! It shows something if its interrupt output changes, or if bytes leave its serial port.
#![tactic(auto)]

mod boards;
mod search;
mod waits;

pub use waits::{clock_due, due, one_law};
