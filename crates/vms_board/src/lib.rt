//! A board: devices that share one clock. It saves its state as a stream and is restored from one.
#![tactic(auto)]

mod board;
mod cells;
mod clock;
mod images;
mod isa;
mod last;
mod machine;
mod restore;
mod save;

pub use board::MachineBoard;
pub use dev_board::{Answer, Devices, Event};
pub use dev_clock::ClockDevices;
pub use isa::machine_name;
pub use last::LastDescription;
pub use machine::Machine;
pub use restore::RestoreFault;
pub use save::{SaveFault, save_devices};
pub use vms_io::NoMemory;
pub use vms_load::{Reason, Refusal};

/// A board with a level from 1 to 4: the machine `isa-1` to `isa-4`.
pub type Board = MachineBoard<Devices>;

/// A board with a clock chip, of version 1 or 2: the machine `clk-1` or `clk-2`.
pub type ClockBoard = MachineBoard<ClockDevices>;
