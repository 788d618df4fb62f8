//! The streams of boards in memory: saving to them, restoring from them, and their laws.
#![tactic(auto)]

mod growing;
mod laws;
mod lent;
mod memory;
mod sets;

pub use growing::Growing;
pub use laws::{
    bytes_law, clock_bytes_law, clock_continuation_law, clock_octets_law, clock_short_law,
    clock_stream_law, continuation_law, octets_law, short_law, stream_law,
};
pub use lent::Lent;
pub use memory::{STREAM_ROOM, restore_from, stream_of};
pub use sets::{KeptSets, bare_by, stream_by};
