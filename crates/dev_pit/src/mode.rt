// How a counter counts, and which bytes of its counts are read and written.
ghost use Rattle.std.specs.Prelude.{◌≡◌, ◌≤◌};
ghost use Rattle.dev_pit.specs.Mode.{mode_number, mode_of, access_number, access_of};

/// How a counter counts ("Mode Definitions" in the data sheet of the 8254).
#[derive(Clone, Copy, Debug, PartialEq, Eq)]
pub(crate) enum Mode {
    /// Mode 0, interrupt on terminal count: OUT is low until the count is used up, and high from
    /// then on.
    TerminalCount = 0,
    /// Mode 1, hardware retriggerable one-shot: waits for a trigger, which never comes.
    OneShot = 1,
    /// Mode 2, rate generator: OUT is low in the last tick of each period.
    RateGenerator = 2,
    /// Mode 3, square wave: OUT is high in the first half of each period.
    SquareWave = 3,
    /// Mode 4, software triggered strobe: OUT is low in the one tick at which the count is used up.
    SoftwareStrobe = 4,
    /// Mode 5, hardware triggered strobe: waits for a trigger, which never comes.
    HardwareStrobe = 5,
}

impl Mode {
    /// Returns the number of the mode, 0 to 5.
    pub fn number(self) -> u8
        ensures number { result ≡ mode_number self }
        ensures small { result ≤ 5 }
    {
        self as u8
    }

    /// Returns the mode that the three mode bits `bits` of a control word mean: 6 is mode 2, and 7
    /// is mode 3.
    pub fn of(bits: u8) -> Mode
        ensures { result ≡ mode_of bits }
    {
        match bits {
            0 => Mode::TerminalCount,
            1 => Mode::OneShot,
            2 | 6 => Mode::RateGenerator,
            3 | 7 => Mode::SquareWave,
            4 => Mode::SoftwareStrobe,
            _ => Mode::HardwareStrobe,
        }
    }
}

/// Which bytes of a count are read and written ("Control Word Format", the bits RW).
#[derive(Clone, Copy, Debug, PartialEq, Eq)]
pub(crate) enum Access {
    /// RW 1: the least significant byte only.
    LowByte = 1,
    /// RW 2: the most significant byte only.
    HighByte = 2,
    /// RW 3: the least significant byte first, then the most significant byte.
    LowThenHigh = 3,
}

impl Access {
    /// Returns the two bits RW, as a number from 1 to 3.
    pub fn number(self) -> u8
        ensures number { result ≡ access_number self }
        ensures small { result ≤ 3 }
    {
        self as u8
    }

    /// Returns the access that the two bits RW, `bits`, mean if they aren't 0.
    pub fn of(bits: u8) -> Access
        ensures { result ≡ access_of bits }
    {
        match bits {
            1 => Access::LowByte,
            2 => Access::HighByte,
            _ => Access::LowThenHigh,
        }
    }
}
