// The interrupts and their identifications.
ghost use Rattle.std.specs.Prelude.{◌≡◌};
ghost use Rattle.dev_serial.specs.Port.{id_number, is_pending, is_thr_empty};

/// The interrupts that the Interrupt Identification Register reports, by falling priority (NS16550A
/// data sheet, "Interrupt Control Functions").
#[derive(Clone, Copy, Debug, PartialEq, Eq)]
pub(crate) enum Interrupt {
    /// A receiver line status interrupt: a byte was lost or replaced.
    LineStatus = 0x06,
    /// Received data is available; with FIFOs, at least as many bytes as the trigger.
    ReceivedData = 0x04,
    /// The character timeout has passed.
    CharacterTimeout = 0x0c,
    /// The transmit list became empty.
    ThrEmpty = 0x02,
    /// No interrupt is pending.
    NonePending = 0x01,
}

impl Interrupt {
    /// Returns the interrupt's number in the Interrupt Identification Register, such as `0x06`.
    pub fn number(self) -> u8
        ensures { result ≡ id_number self }
    {
        self as u8
    }

    /// Reports whether this is [`Interrupt::ThrEmpty`].
    pub fn is_thr_empty(self) -> bool
        ensures { result ≡ is_thr_empty self }
    {
        matches!(self, Interrupt::ThrEmpty)
    }

    /// Reports whether this is any interrupt but [`Interrupt::NonePending`].
    pub fn is_pending(self) -> bool
        ensures { result ≡ is_pending self }
    {
        !matches!(self, Interrupt::NonePending)
    }
}
