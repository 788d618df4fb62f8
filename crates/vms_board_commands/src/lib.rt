//! The commands of boards: `save`, `load`, `drill` and `play`.
//!
//! This crate has the outcome, the possible endings and the code of each. The top call reads their
//! arguments. A drill is also a call of the library ([`drills::drill`]).
#![tactic(auto)]

mod asked;
mod drill;
pub mod drills;
mod load;
mod play;
mod save;
mod scripts;

pub use asked::{OnBoard, Saving};
pub use drill::drill_board;
pub use load::load_board;
pub use play::play_board;
pub use save::save_board;
pub use scripts::LONGEST_SCRIPT;
