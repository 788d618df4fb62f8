//! Spots: the places of the numbers of a device's state in one buffer of bytes, and the buffer.
//!
//! Each number is at a multiple of its width, big-endian. The bytes between are 0.
#![tactic(auto)]

mod buffer;
mod layout;

pub use buffer::Buffer;
pub use layout::{MOST_BYTES, Spot, lay_out, size};
