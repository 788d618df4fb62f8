//! Listings of streams by their own descriptions: what `show` prints, without a set
//! (docs/format.md, "Without a set").
#![tactic(auto)]

mod call;
mod devices;
mod each;
mod elements;
mod fault;
mod heads;
mod input;
pub mod laws;
mod list;
mod members;
mod place;
mod sections;
mod told;
mod walk;

pub use call::analyze;
pub use fault::{AnalyzeFault, AnalyzeReason};
