// What a byte written to the control port means.
ghost use Rattle.std.specs.Prelude.{◌≡◌};
ghost use Rattle.dev_pit.specs.Control.{control_word, IsWord};

use crate::mode::{Access, Mode};
use dev_base::has;

/// A byte written to the control word register.
#[derive(Clone, Copy, Debug, PartialEq, Eq)]
pub(crate) enum ControlWord {
    /// "Counter Latch Command": latches the count of counter `counter`, 0 to 2.
    LatchCount {
        counter: u8,
    },
    /// "Control Word Format": sets the mode of counter `counter`, 0 to 2.
    SetMode {
        counter: u8,
        access: Access,
        mode: Mode,
        bcd: bool,
    },
    /// "Read-Back Command", on the 8254 only: latches counts, statuses or both of the chosen
    /// counters.
    ReadBack {
        count: bool,
        status: bool,
        counter0: bool,
        counter1: bool,
        counter2: bool,
    },
}

impl ControlWord {
    /// Returns the control word that the byte `value` means ("Control Word Format").
    ///
    /// Bits 7 and 6 choose a counter; if they are 3, the byte is a read-back command. Otherwise
    /// bits 5 and 4 are RW; if they are 0, the byte is a counter latch command.
    #[tactic(auto, unfolding(crate::specs::Control::control_word))]
    pub fn of(value: u8) -> ControlWord
        ensures word { result ≡ control_word value }
        ensures counter { IsWord result }
    {
        let counter = value / 64;
        let access = value / 16 % 4;
        if counter == 3 {
            return ControlWord::ReadBack {
                count: !has(value, 5),
                status: !has(value, 4),
                counter0: has(value, 1),
                counter1: has(value, 2),
                counter2: has(value, 3),
            };
        }
        if access == 0 {
            return ControlWord::LatchCount { counter };
        }
        ControlWord::SetMode {
            counter,
            access: Access::of(access),
            mode: Mode::of(value / 2 % 8),
            bcd: has(value, 0),
        }
    }
}
