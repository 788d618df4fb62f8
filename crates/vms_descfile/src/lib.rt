//! Description files, which are description sets as JSON.
#![tactic(auto)]

mod file_fault;
pub mod laws;
mod read;
mod write;

pub use file_fault::FileFault;
pub use read::{read_parts, read_set};
pub use write::{set_value, write_set};
