//! What it means that two sets are compatible: the newer one reads what the older one writes, with
//! the carried images.
#![tactic(auto)]

/// Laws of an upgrade.
pub mod laws;
