//! The check of description sets: whether one is well formed, or the first place at which one of
//! the eight rules fails.
//!
//! The walk goes through the set itself, its structures, its devices, each with its fields, its
//! validations and its subsections, and the set again for its number of items. Each place has a
//! list of its rules, in their order.
#![tactic(auto)]

mod capacities;
mod descs;
mod devices;
mod fault;
mod fields;
mod formulas;
mod keys;
mod names;
mod sets;
mod structs;

pub use fault::DescFault;
pub use sets::check;
