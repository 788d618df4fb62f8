//! Streams of the newest set, written under an older one.
#![tactic(auto)]

mod back;
mod call;
mod carrying;
mod fault;
mod giving;
/// Laws of conversion.
pub mod laws;
mod losing;
mod pairing;
mod recasting;
mod returning;
mod returns;
mod room;
mod taking;

pub use call::{convert, convert_with, newest_loader};
pub use fault::ConvertFault;
pub use pairing::partners;
