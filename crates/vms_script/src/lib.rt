//! Scripts, which say line by line what happens to a board, and the trace of the board's answers.
#![tactic(auto)]

mod event;
mod hex;
mod kept;
mod laws;
mod line;
mod name;
mod number;
mod script;
mod session;
mod split;
mod trace;

pub use laws::{grammar_law, refusal_law};
pub use line::{Line, ScriptFault, ScriptReason, SessionLine};
pub use name::is_shelf_name;
pub use number::{LONGEST_WAIT, number_of};
pub use script::{read_events, read_script};
pub use session::is_set_of;
pub use trace::print_answer;
pub use vms_io::WriteFault;
