//! The pair of Intel 8259A interrupt controllers of a PC, as a model whose state can be saved and
//! restored.
#![tactic(auto)]

mod bits;
mod cells;
mod chip;
mod fault;
mod laws;
mod levels;
mod ocw2;
mod pair;
mod saved;
mod winner;

pub use fault::ChipFault;
pub use laws::{
    cells_law, default_law, eoi_law, fault_law, initialization_law, kept_lines_law,
    level_inputs_law, level_law, lines_law, mask_law, nesting_law, numbers_law, poll_law,
    remembered_law, restored_law, rotation_law, rules_law, saved_law, service_law,
    special_nesting_law, steps_law, winner_law,
};
pub use pair::PicPair;
