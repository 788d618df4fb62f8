// What an I/O port of a board reaches.
/// What an access of an I/O port reaches.
#[derive(Clone, Copy)]
pub(crate) enum Target {
    /// The pair, by the port itself.
    Pair,
    /// The port of counter `counter`, 0 to 2.
    Counter { counter: u8 },
    /// The control port of the timer chip.
    Control,
    /// The register of the serial port at `offset`, 0 to 7.
    Register { offset: u8 },
    /// No device.
    Nothing,
}
