/// A byte in the transmitter's shift register, and the moment at which it is sent.
#[derive(Clone, Copy, Debug, PartialEq, Eq)]
pub struct Shift {
    /// The byte.
    pub byte: u8,
    /// The moment at which the byte is sent, in nanoseconds.
    pub due: u64,
}
