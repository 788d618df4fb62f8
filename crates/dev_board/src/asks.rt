// What is asked of a board's devices.
ghost use Rattle.std.specs.Prelude.{◌≡◌, ◌<◌, ◌≤◌, [], true, false};
ghost use Rattle.dev_base.specs.declared.limits.TheConstants.{LAST_MOMENT as last_moment};
ghost use Rattle.dev_board.specs.Kept.{IsCalm};
ghost use Rattle.dev_board.specs.Step.{IsSentBy, later_by, step};
ghost use Rattle.dev_board.specs.declared.event.Event.TheVariants.{Wait};
ghost use Rattle.dev_pic.specs.Pair.{int_of};
ghost use Rattle.dev_pit.specs.Pit.{pit_out};
ghost use Rattle.dev_serial.specs.Access.{room_of};
ghost use Rattle.dev_serial.specs.Line.{character_time};

use crate::kept::calm_by;
use crate::parts::Parts;
use crate::ports::Target;
use dev_base::LAST_MOMENT;

impl Parts {
    ghost use Rattle.dev_board.specs.Ports.{has_port as has_port_of};

    /// Tells whether the master's interrupt output is high.
    pub(crate) fn int(&self) -> bool
        ensures { result ≡ int_of self.now.pair }
    {
        self.pair.int()
    }

    /// Tells whether OUT of counter `counter` is high at the present moment.
    pub(crate) fn output(&self, counter: u8) -> bool
        requires { counter < 3 }
        ensures { result ≡ pit_out counter self.now.moment self.now.pit }
    {
        self.pit.out(counter, self.moment)
    }

    /// Tells whether a device has the port `port`.
    #[inline(always)]
    pub(crate) fn has_port(&self, port: u16) -> bool
        ensures { result ≡ has_port_of self.now.level port }
    {
        !matches!(self.target(port), Target::Nothing)
    }

    /// Returns how many bytes the serial port's receiver has room for.
    pub(crate) fn room(&self) -> u8
        ensures { result ≡ room_of self.now.serial }
    {
        self.serial.room()
    }

    /// Returns the time of one character on the serial line, in nanoseconds.
    pub(crate) fn character(&self) -> u64
        ensures { result ≡ character_time self.now.serial.divisor self.now.serial.lcr }
    {
        self.serial.character()
    }

    /// Returns other devices in the same state.
    pub(crate) fn copy(&self) -> Parts
        ensures { result ≡ self.now }
    {
        Parts {
            serial: self.serial.copy(),
            ..*self
        }
    }

    /// Returns the moment after `ns` nanoseconds, not beyond the last.
    #[inline(always)]
    pub(crate) fn later_by(&self, ns: u64) -> u64
        ensures later { result ≡ later_by ns self.now.moment }
        ensures after { self.now.moment ≤ result }
        ensures last { result ≤ last_moment }
    {
        self.moment.saturating_add(ns).min(LAST_MOMENT)
    }

    /// Tells whether a byte leaves the shift register while `ns` nanoseconds pass. Otherwise none
    /// leaves the serial port.
    #[inline(always)]
    pub(crate) fn sends_by(&self, ns: u64) -> bool
        ensures none { result ≡ false → (step (Wait ns) self.now).0.sent.items ≡ [] }
        ensures some { result ≡ true → IsSentBy ns self.now }
    {
        let to = self.later_by(ns);
        !self.serial.is_still(to)
    }

    /// Returns `calm` if `is_calm`, else a moment before which OUT of counter 0 stays as it is.
    #[inline(always)]
    pub(crate) fn still_calm(&self, is_calm: bool, calm: u64) -> u64
        requires { is_calm ≡ true → IsCalm calm self.now }
        ensures { IsCalm result self.now }
    {
        if is_calm { calm } else { self.calm() }
    }

    // Returns a moment before which OUT of counter 0 stays as it is. This is rare, so it isn't
    // inlined, which keeps an event's code short.
    #[inline(never)]
    fn calm(&self) -> u64
        ensures { IsCalm result self.now }
    {
        calm_by(self.pit.turns(0, self.moment), self.moment)
    }
}
