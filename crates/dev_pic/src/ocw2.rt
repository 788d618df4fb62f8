// The commands of OCW2.
ghost use Rattle.std.specs.Prelude.{◌≡◌};

/// A command of OCW2, by its bits R, SL and EOI ("Operation Control Word 2 (OCW2)"). Inputs are 0
/// to 7.
#[derive(Clone, Copy, Debug, PartialEq, Eq)]
pub(crate) enum Ocw2 {
    /// Ends the service of highest priority.
    NonSpecificEoi,
    /// Ends the service of highest priority, and gives its input the lowest priority.
    RotateOnNonSpecificEoi,
    /// Ends the service of `input`.
    SpecificEoi { input: u8 },
    /// Ends the service of `input`, and gives it the lowest priority.
    RotateOnSpecificEoi { input: u8 },
    /// Sets or clears rotation in automatic EOI mode.
    RotateInAutomaticEoi { rotate: bool },
    /// Gives `input` the lowest priority.
    SetPriority { input: u8 },
    /// Does nothing.
    NoOperation,
}

impl Ocw2 {
    ghost use Rattle.dev_pic.specs.Ocw2.{HasInput, command_of};

    /// Returns the command that the word `value` means.
    pub fn of(value: u8) -> Ocw2
        ensures command { result ≡ command_of value }
        ensures input { HasInput result }
    {
        let input = value % 8;
        match value >> 5 {
            0b001 => Ocw2::NonSpecificEoi,
            0b101 => Ocw2::RotateOnNonSpecificEoi,
            0b011 => Ocw2::SpecificEoi { input },
            0b111 => Ocw2::RotateOnSpecificEoi { input },
            0b100 => Ocw2::RotateInAutomaticEoi { rotate: true },
            0b000 => Ocw2::RotateInAutomaticEoi { rotate: false },
            0b110 => Ocw2::SetPriority { input },
            _ => Ocw2::NoOperation,
        }
    }
}
