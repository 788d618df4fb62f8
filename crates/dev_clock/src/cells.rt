// The cells of a clock board's devices.
use dev_board::BoardCells;
use vms_kinds::DevCells;

/// The cells of a clock board's devices, in the order of a clock set's devices.
#[derive(Drop)]
pub struct ClockCells {
    /// The cells of the clock chip.
    pub clock: DevCells,
    /// The cells of the board's devices.
    pub board: BoardCells,
}
