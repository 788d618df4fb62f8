//! The programmable interval timer of a PC: an Intel 8253 at level 1 and an 8254 from level 2 on.
//!
//! Three counters count the ticks of a clock of 1,193,182 Hz. Nothing is counted step by step: a
//! counter keeps the moment at which it was loaded. What it shows later follows from the ticks
//! since then. The gates are always high, and counting is binary.
#![tactic(auto)]

mod cells;
mod channel;
mod control;
mod counter;
mod laws;
mod limits;
mod mode;
mod pit;
mod saved;
mod ticks;
mod turns;

pub use laws::{
    cells_law, counting_law, edge_parts_law, edge_turns_high_law, latch_law, level_law,
    numbers_law, read_back_law, restored_law, rules_law, saved_law, sound_law, status_law,
    terminal_count_law, ticks_law,
};
pub use pit::Pit;
pub use turns::Turns;
