//! The loader: reads one stream of a set from a source, unit by unit. Each unit is judged when it
//! is complete.
//!
//! What is read is staged beside the images that are kept, so a refused stream leaves these
//! unchanged.
#![tactic(auto)]

mod body;
mod fault;
mod heads;
mod items;
pub mod laws;
mod lean;
mod loader;
mod parts;
mod staged;
mod stream;

pub use fault::LoadFault;
pub use lean::LeanLoader;
pub use loader::Loader;
pub use staged::default_images;
pub use vms_frames::Refusal;
pub use vms_spec::Reason;
