//! A serial port: the 16450, and the 16550A with and without the character timeout.
//!
//! Registers, bits and identifications have their names from the National Semiconductor data sheets
//! "NS16450 Universal Asynchronous Receiver/Transmitter" and "NS16550A .. with FIFOs". Moments are
//! nanoseconds since power on.
#![tactic(auto)]

mod fifo;
mod interrupt;
mod laws;
mod levels;
mod mode;
mod numbers;
mod receiver;
mod registers;
mod rings;
mod rules;
mod saved;
mod serial;
mod shift;
mod stored;
mod transmitter;
mod trigger;
mod views;

pub use laws::{
    alike_law, cells_law, divisor_law, fifo_control_law, interrupt_law, level_law, likeness_law,
    modem_law, numbers_law, places_law, recast_law, restored_law, ring_law, room_law, rules_law,
    saved_law, sending_law, sound_law, time_law,
};
pub use rings::recast;
pub use serial::Serial;
pub use shift::Shift;
pub use stored::PORT_CELLS;
pub use transmitter::MOST_SENT;
