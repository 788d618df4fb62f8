//! Drills of a board: a seed chooses the events, after every thousandth one the board is restored
//! from its own stream, and the board's answers are counted.

mod events;
mod fold;
mod laws;
mod progress;
mod round;
mod schedule;
mod tally;

pub use events::Events;
pub use fold::{Drilled, Summary, drill};
pub use laws::{events_law, numbers_law, progress_law, saves_law, size_law};
pub use schedule::{BETWEEN_SAVES, is_save_due, set_of};
pub use tally::Tally;
