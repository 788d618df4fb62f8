// The devices of a board on one clock.
ghost use Rattle.std.specs.Prelude.{◌≡◌, ◌<◌, ◌≤◌, IsTrue, MatchOption, None};
ghost use Rattle.dev_base.specs.Levels.{IsLevel};
ghost use Rattle.dev_base.specs.declared.limits.TheConstants.{LAST_MOMENT as last_moment};
ghost use Rattle.dev_pic.specs.Pair.{int_of};
ghost use Rattle.dev_pit.specs.Pit.{pit_out};
ghost use Rattle.dev_serial.specs.Access.{room_of};
ghost use Rattle.dev_serial.specs.Line.{character_time};

use crate::event::{Answer, Event};
use crate::kept::Kept;
use crate::parts::Parts;
use dev_pit::Pit;
use dev_serial::Serial;
use std::marker::Model;

/// The pair of 8259A, the timer chip and the serial port of a board, at a present moment.
///
/// Levels are 1 to 4. Moments are nanoseconds after power on, at most `LAST_MOMENT`.
#[derive(Drop)]
pub struct Devices {
    /// The devices, whose lines agree with what the master remembers.
    pub(crate) parts: Parts,
    /// What is known of them between events.
    pub(crate) kept: Kept,
}

impl Model for Devices {
    ghost use Rattle.dev_board.specs.State.{State};

    ghost Value = { State };

    ghost use Rattle.dev_board.specs.View.{devices_view, HoldsAlways};

    ghost view = { devices_view };

    ghost invariant = { HoldsAlways };
}

impl Devices {
    ghost use Rattle.dev_board.specs.Ports.{has_port};
    ghost use Rattle.dev_board.specs.Sound.{IsSound};
    ghost use Rattle.dev_board.specs.State.{power_on};
    ghost use Rattle.dev_board.specs.Step.{IsSentBy, step, names_wire};
    ghost use Rattle.dev_board.specs.Touch.{saying};
    ghost use Rattle.dev_board.specs.declared.event.Event.TheVariants.{Wait};

    /// Returns the devices of level `level`, 1 to 4, at power on.
    ///
    /// # Requires
    ///
    /// `level` is one that boards have, 1 to 4.
    pub fn new(level: u8) -> Devices
        requires { IsLevel level }
        ensures state { result ≡ power_on level }
        ensures sound { IsSound result }
    {
        Devices::of(Parts::new(level))
    }

    // Returns these devices, with nothing known of the timer's next edge.
    pub(crate) fn of(parts: Parts) -> Devices
        requires { IsSound parts }
        ensures { result ≡ parts }
    {
        let int = parts.int();
        Devices {
            parts,
            kept: Kept { int, calm: 0 },
        }
    }

    /// Lets `ns` nanoseconds pass and returns the interrupt output if no byte leaves the shift
    /// register by then. Otherwise nothing happens, and it returns `None`.
    #[inline(always)]
    #[tactic(auto, unfolding(crate::specs::Step::names_wire))]
    pub fn pass(&mut self, ns: u64) -> Option<bool>
        ensures passed { MatchOption result (self.new ≡ self.old)
            (λ int. (saying None int, self.new) ≡ step (Wait ns) self.old) }
        ensures none { result ≡ None → IsSentBy ns self.old }
    {
        if self.parts.sends_by(ns) {
            return None;
        }
        let answer = self.event(Event::Wait { ns });
        Some(answer.int)
    }

    /// Returns the level, 1 to 4.
    pub fn level(&self) -> u8
        ensures { result ≡ self.now.level }
    {
        self.parts.level
    }

    /// Returns the present moment, in nanoseconds after power on; at most `LAST_MOMENT`.
    pub fn now(&self) -> u64
        ensures moment { result ≡ self.now.moment }
        ensures last { result ≤ last_moment }
    {
        self.parts.now()
    }

    /// Applies `event` to the board, updates the interrupt lines once, and returns the answer.
    ///
    /// The board is sound afterwards. Time passes at most up to `LAST_MOMENT`.
    ///
    /// # Requires
    ///
    /// If `event` is an [`Event::Wire`], its input is a wire: one of 1, 3, 5, 6, 7 and 8 to 15.
    #[inline(always)]
    pub fn event(&mut self, event: Event) -> Answer
        requires wire { IsTrue (names_wire event) }
        ensures step { (result, self.new) ≡ step event self.old }
        ensures sound { IsSound self.new }
    {
        self.parts.event(event, &mut self.kept)
    }

    /// Tells whether the master's interrupt output (INT) is high.
    pub fn int(&self) -> bool
        ensures { result ≡ int_of self.now.pair }
    {
        self.kept.int
    }

    /// Tells whether OUT of counter `counter` of the timer chip, 0 to 2, is high at the present
    /// moment.
    ///
    /// # Requires
    ///
    /// `counter` is below 3.
    pub fn output(&self, counter: u8) -> bool
        requires { counter < 3 }
        ensures { result ≡ pit_out counter self.now.moment self.now.pit }
    {
        self.parts.output(counter)
    }

    /// Tells whether a device of the board has the port `port`.
    pub fn has_port(&self, port: u16) -> bool
        ensures { result ≡ has_port self.now.level port }
    {
        self.parts.has_port(port)
    }

    /// Returns how many bytes may arrive on the serial line before one is lost.
    ///
    /// It is up to 16 with FIFOs, else 1 or 0. It is 0 in loop mode, which ignores bytes on the
    /// line.
    pub fn room(&self) -> u8
        ensures { result ≡ room_of self.now.serial }
    {
        self.parts.room()
    }

    /// Returns the time of one character on the serial line, in nanoseconds.
    pub fn character(&self) -> u64
        ensures { result ≡ character_time self.now.serial.divisor self.now.serial.lcr }
    {
        self.parts.character()
    }

    /// Returns the timer chip.
    pub fn pit(&self) -> &Pit
        ensures { result.now ≡ self.now.pit }
    {
        &self.parts.pit
    }

    /// Returns the serial port.
    pub fn serial(&self) -> &Serial
        ensures { result.now ≡ self.now.serial }
    {
        &self.parts.serial
    }

    /// States that the devices are sound at any time.
    pub fn is_sound(&self)
        ensures { IsSound self.now }
    {
        let _ = &self.parts;
    }

    /// Returns other devices in the same state.
    pub fn copy(&self) -> Devices
        ensures { result ≡ self.now }
    {
        Devices {
            parts: self.parts.copy(),
            kept: self.kept,
        }
    }
}
