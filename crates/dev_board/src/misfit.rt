// Why cells don't describe a board.
/// Why the cells of devices, each in its kind's range, don't describe a board.
#[derive(Clone, Copy, Debug, PartialEq, Eq)]
pub enum Misfit {
    /// The device `device` breaks its rule `rule`, the first that it breaks. No device before it
    /// breaks one.
    ///
    /// The devices are 0 the timer, 1 the master, 2 the slave, 3 the timer chip, 4 the serial port.
    /// Rules are numbered from 1.
    Unsound { device: u32, rule: u8 },
    /// The lines that the master remembers aren't those of the devices; `device` is the master's
    /// place.
    LinesDisagree { device: u32 },
}

/// The place of the timer, whose cell is the moment, among the devices of a set.
pub(crate) const TIMER_DEVICE: u32 = 0;

/// The place of the master.
pub(crate) const MASTER_DEVICE: u32 = 1;

/// The place of the slave, next to the master's.
pub(crate) const SLAVE_DEVICE: u32 = 2;

/// The place of the timer chip.
pub(crate) const PIT_DEVICE: u32 = 3;

/// The place of the serial port.
pub(crate) const SERIAL_DEVICE: u32 = 4;
