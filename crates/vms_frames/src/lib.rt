//! The units of a migration stream, read from any source.
//!
//! A [`Cursor`] reads one unit a call and knows its offset in the stream. It knows the marks and
//! the forms of the units, but no description set: its caller checks whether a machine, device or
//! version is the expected one. Each unit is judged when it is complete. No byte after it is read,
//! except the one that ends a section without a footer, which the cursor holds.
//!
//! The contracts say which unit is at the front of the rest of the input, and which rows of the
//! table of reasons it decides alone.
#![tactic(auto)]

mod cursor;
mod fault;
mod fill;
mod read;
mod units;

pub use cursor::Cursor;
pub use fault::{FrameFault, Refusal};
pub use units::{After, Between, Step, Tail};
pub use vms_spec::Reason;
