//! Sessions: what the lines of a script do to a board and to the shelf. It also runs events on a
//! board of any kind, with or without their trace.
#![tactic(auto)]

mod laws;
mod line;
mod lines;
mod mark;
mod run;
mod shelf;

pub use laws::{end_law, level_law, line_law, refusal_law, script_law, sound_law};
pub use line::PlayFault;
pub use lines::play;
pub use run::{run_events, trace};
