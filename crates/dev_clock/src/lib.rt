//! The devices of a clock board: those of a board of the newest level, and a clock chip. The chip's
//! interrupt line drives the slave's first input.
#![tactic(auto)]

mod cells;
mod devices;
mod laws;
mod saved;

pub use cells::ClockCells;
pub use devices::ClockDevices;
pub use laws::{
    alike_law, cells_law, clock_law, continuation_law, int_law, numbers_law, restored_law,
    rules_law, saved_law, sound_law,
};
