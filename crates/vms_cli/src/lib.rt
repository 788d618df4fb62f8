//! The program's top call: it runs the command that the arguments name, on the objects that the
//! caller passes.
#![tactic(auto)]

mod board_words;
mod boards;
mod commands;
mod kinds;
/// Laws of the whole program.
pub mod laws;
mod running;
mod top;
mod two_sets;
mod values_notes;
mod words;

pub use running::program;
pub use top::{tell, vmstate};
pub use words::Words;
