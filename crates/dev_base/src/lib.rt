//! What the devices share: levels, saving and restoring through hooks, cells, the rules of cells,
//! and the bits of registers.
#![tactic(auto)]

mod bits;
mod cells;
mod hooks;
mod limits;
mod rules;

pub use bits::{bits_where, has};
pub use cells::{append, are_of, byte_at, flag_at, moment_at, signed_at, word_at};
pub use hooks::{HasHooks, load_device, save_device};
pub use limits::{LAST_MOMENT, NANOSECONDS, NEWEST, is_level};
pub use rules::{first_failing, first_failing_law, hook_result};
