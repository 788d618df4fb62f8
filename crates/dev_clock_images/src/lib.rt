//! The images of a clock board's devices in the clock sets.
#![tactic(auto)]

mod laws;

pub use laws::{
    carried_law, chip_law, compatible_law, images_law, kinds_law, normal_law, places_law, saved_law,
};
