//! Self-descriptions: what a stream holds, as JSON that can be read without the stream's set.
#![tactic(auto)]

mod alike;
mod devices;
mod draft;
mod entry;
mod fields;
mod laws;
mod path;
mod room;
mod text;
mod tree;

pub use alike::are_alike;
pub use laws::{clock_law, shipped_law, short_law};
pub use room::DescriptionRoom;
pub use tree::describe;
pub use vms_io::NoMemory;
