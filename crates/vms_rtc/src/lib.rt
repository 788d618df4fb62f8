//! The clock chip of a PC, an MC146818, as far as a guest sees it through its periodic interrupt.
//!
//! Sixty-four registers are accessed through an index. The time of day isn't counted: its registers
//! are plain bytes, and alarm and update interrupts don't occur. Nothing is counted step by step:
//! whether a period has ended in a span of time follows from the crystal's ticks at both ends.
#![tactic(auto)]

mod cells;
mod laws;
mod limits;
mod rtc;
mod saved;
mod ticks;

pub use laws::{
    cells_law, flags_law, kept_law, level_law, multiple_law, numbers_law, parts_law, restored_law,
    rules_law, saved_law, sound_law,
};
pub use limits::NEWEST_CLOCK;
pub use rtc::Rtc;
