// The trigger level of the receive FIFO.
ghost use Rattle.std.specs.Prelude.{◌≡◌};
ghost use Rattle.dev_serial.specs.Fifo.{trigger_of, trigger_number, trigger_bytes};

/// The number of received bytes that request an interrupt while FIFOs are on ("FIFO Control
/// Register", bits 6 and 7).
#[derive(Clone, Copy, Debug, PartialEq, Eq)]
pub(crate) enum Trigger {
    One,
    Four,
    Eight,
    Fourteen,
}

impl Trigger {
    /// Returns the trigger with the two bits `bits`, from 0 to 3.
    pub(crate) fn of_bits(bits: u8) -> Trigger
        ensures { result ≡ trigger_of bits }
    {
        match bits {
            0 => Trigger::One,
            1 => Trigger::Four,
            2 => Trigger::Eight,
            _ => Trigger::Fourteen,
        }
    }

    /// Returns the two bits of the trigger, from 0 to 3.
    pub(crate) fn bits(self) -> u8
        ensures { result ≡ trigger_number self }
    {
        self as u8
    }

    /// Returns the number of bytes.
    pub(crate) fn bytes(self) -> usize
        ensures { result ≡ trigger_bytes self }
    {
        match self {
            Trigger::One => 1,
            Trigger::Four => 4,
            Trigger::Eight => 8,
            Trigger::Fourteen => 14,
        }
    }
}
