//! Three devices of a PC's board on one clock: the pair of 8259A, the timer chip and the serial
//! port.
#![tactic(auto)]

mod asks;
mod cells;
mod devices;
mod event;
mod kept;
mod laws;
mod misfit;
mod parts;
mod ports;
mod quick;
mod saved;
mod touch;
mod wires;

pub use cells::{BoardCells, DeviceCells};
pub use devices::Devices;
pub use event::{Answer, Event};
pub use laws::{
    alike_law, cells_law, clock_law, continuation_law, int_law, likeness_law, numbers_law,
    ports_law, restored_law, rules_law, saved_law, sound_law, wires_law,
};
pub use misfit::Misfit;
pub use wires::is_wire;
