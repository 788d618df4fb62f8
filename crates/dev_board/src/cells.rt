// The cells of a board's devices.
ghost use Rattle.std.specs.Prelude.{◌≡◌, ◌≤◌, length};
ghost use Rattle.vms_kinds.specs.declared.TheConstants.{MOST_CELLS};
ghost use Rattle.dev_board.specs.declared.cells.BoardCells.{BoardCells};

use arrayvec::ArrayVec;
use dev_base::append;
use vms_kinds::DevCells;

/// The cells of a board's devices, in the order of a set's devices.
#[derive(Drop)]
pub struct BoardCells {
    /// The one cell of the timer: the moment, in nanoseconds.
    pub timer: DevCells,
    /// The cells of the master 8259A.
    pub master: DevCells,
    /// The cells of the slave 8259A.
    pub slave: DevCells,
    /// The cells of the timer chip.
    pub pit: DevCells,
    /// The cells of the serial port.
    pub serial: DevCells,
}

/// The cells of a board's devices, each list made when it is read.
pub trait DeviceCells {
    /// The cells of all devices.
    ghost cells: { Self → BoardCells };

    /// Returns the one cell of the timer.
    fn timer(&self) -> DevCells
        ensures { result ≡ (cells self.now).timer };

    /// Returns the cells of the master 8259A.
    fn master(&self) -> DevCells
        ensures { result ≡ (cells self.now).master };

    /// Returns the cells of the slave 8259A.
    fn slave(&self) -> DevCells
        ensures { result ≡ (cells self.now).slave };

    /// Returns the cells of the timer chip.
    fn pit(&self) -> DevCells
        ensures { result ≡ (cells self.now).pit };

    /// Returns the cells of the serial port.
    fn serial(&self) -> DevCells
        ensures { result ≡ (cells self.now).serial };
}

impl DeviceCells for BoardCells {
    ghost cells = { λ c. c };

    fn timer(&self) -> DevCells {
        cells_of(&self.timer)
    }

    fn master(&self) -> DevCells {
        cells_of(&self.master)
    }

    fn slave(&self) -> DevCells {
        cells_of(&self.slave)
    }

    fn pit(&self) -> DevCells {
        cells_of(&self.pit)
    }

    fn serial(&self) -> DevCells {
        cells_of(&self.serial)
    }
}

/// Returns these numbers as cells; there is room for `MOST_CELLS`.
pub(crate) fn cells_of(numbers: &[i128]) -> DevCells
    requires { length numbers.now ≤ MOST_CELLS }
    ensures { result ≡ record { items = numbers.now } }
{
    let mut cells = ArrayVec::new();
    append(&mut cells, numbers);
    cells
}
