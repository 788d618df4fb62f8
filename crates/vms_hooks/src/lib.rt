//! Stored closures that save and restore devices, like VMState's `pre_save` and `post_load`.
//!
//! A device type says in `Hooked` what saving and restoring mean. `Hooks` keeps two closures and a
//! proof that they do so. Only they borrow a `Pass`, so a device's cells are read and set nowhere
//! else.
#![tactic(auto)]

mod fault;
mod hooks;
mod pass;
mod sealed;
mod steps;

pub use fault::HookFault;
pub use hooks::{Hooked, Hooks, load_by, save_by};
pub use pass::Pass;
pub use steps::{LoadStep, SaveStep};
