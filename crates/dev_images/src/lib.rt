//! The images of a board's devices in the shipped sets, their cells, and the kinds of these.
#![tactic(auto)]

mod cells;
pub mod kinds;
mod laws;

pub use cells::image_cells;
pub use laws::{
    carried_chip_law, carried_law, carried_pit_law, carried_serial_law, carried_timer_law,
    chip_law, images_law, normal_law, pit_law, places_law, saved_law, serial_law, timer_law,
};
