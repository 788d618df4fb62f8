// The devices of a clock board on one clock.
ghost use Rattle.std.specs.Prelude.{◌≡◌, ◌<◌, ◌≤◌, IsTrue};
ghost use Rattle.dev_base.specs.Levels.{IsUpTo};
ghost use Rattle.dev_base.specs.declared.limits.TheConstants.{LAST_MOMENT};
ghost use Rattle.dev_board.specs.Step.{names_wire};
ghost use Rattle.dev_clock.specs.Step.{saying as saying_of};
ghost use Rattle.dev_pic.specs.Pair.{int_of};
ghost use Rattle.dev_pit.specs.Pit.{pit_out};
ghost use Rattle.dev_serial.specs.Access.{room_of};
ghost use Rattle.dev_serial.specs.Line.{character_time};
ghost use Rattle.vms_rtc.specs.Chip.{is_port};
ghost use Rattle.vms_rtc.specs.declared.limits.TheConstants.{NEWEST_CLOCK};

use arrayvec::ArrayVec;
use dev_base::NEWEST;
use dev_board::{Answer, Devices, Event};
use std::marker::Model;
use vms_rtc::Rtc;

/// The pair's input that the chip's interrupt line drives: the slave's first.
pub(crate) const CLOCK_INPUT: u8 = 8;

/// A clock chip beside the devices of a board of the newest level, at a present moment.
///
/// Versions are 1 and 2. Moments are nanoseconds after power on, at most `LAST_MOMENT`, as those of
/// the board's devices.
#[derive(Drop)]
pub struct ClockDevices {
    /// The clock chip.
    pub(crate) clock: Rtc,
    /// The board's devices, of the newest level.
    pub(crate) board: Devices,
}

impl Model for ClockDevices {
    ghost use Rattle.dev_clock.specs.State.{ClockState};

    ghost Value = { ClockState };

    ghost use Rattle.dev_clock.specs.View.{clock_view};
    ghost use Rattle.dev_clock.specs.Sound.{HasDevices};

    ghost view = { clock_view };

    ghost invariant = { λ d. HasDevices (clock_view d) };
}

impl ClockDevices {
    ghost use Rattle.dev_clock.specs.Sound.{IsSound};
    ghost use Rattle.dev_clock.specs.State.{power_on};
    ghost use Rattle.dev_clock.specs.Step.{acted, clock_read, clock_written, has_port, step, waited};

    /// Returns the devices at power on, with a chip of version `version`, 1 or 2.
    ///
    /// # Requires
    ///
    /// `version` is one that clock chips have, 1 or 2.
    #[tactic(auto, unfolding(crate::specs::State::power_on))]
    pub fn new(version: u8) -> ClockDevices
        requires { IsUpTo NEWEST_CLOCK version }
        ensures state { result ≡ power_on version }
        ensures sound { IsSound result }
    {
        ClockDevices {
            clock: Rtc::new(version),
            board: Devices::new(NEWEST),
        }
    }

    /// Returns the version of the chip, 1 or 2.
    pub fn version(&self) -> u8
        ensures { result ≡ self.now.clock.version }
    {
        self.clock.version()
    }

    /// Returns the present moment, in nanoseconds after power on; at most `LAST_MOMENT`.
    pub fn now(&self) -> u64
        ensures moment { result ≡ self.now.board.moment }
        ensures last { result ≤ LAST_MOMENT }
    {
        self.board.now()
    }

    /// Applies `event`, then updates the board's input from the chip's line, and returns the
    /// answer.
    ///
    /// The answer's value and bytes are those of the event; its interrupt output is that after the
    /// input's update. The devices are sound afterwards.
    ///
    /// The ports 0x70 and 0x71 are the chip's. Its input is driven by the chip, so an event that
    /// names it as a wire changes nothing. Other events are the board's, and time passes for the
    /// chip too.
    ///
    /// # Requires
    ///
    /// If `event` is an [`Event::Wire`], its input is one of 1, 3, 5, 6, 7 and 8 to 15.
    #[tactic(auto, unfolding(crate::specs::Step::step, crate::specs::Step::follows_line))]
    pub fn event(&mut self, event: Event) -> Answer
        requires wire { IsTrue (names_wire event) }
        ensures step { (result, self.new) ≡ step event self.old }
        ensures sound { IsSound self.new }
    {
        let answer = self.act(event);
        let taken = self.board.event(Event::Wire {
            input: CLOCK_INPUT,
            up: self.clock.line(),
        });
        Answer {
            value: answer.value,
            int: taken.int,
            sent: answer.sent,
        }
    }

    /// Tells whether the master's interrupt output is high.
    pub fn int(&self) -> bool
        ensures { result ≡ int_of self.now.board.pair }
    {
        self.board.int()
    }

    /// Tells whether OUT of counter `counter` of the timer chip, 0 to 2, is high at the present
    /// moment.
    ///
    /// # Requires
    ///
    /// `counter` is below 3.
    pub fn output(&self, counter: u8) -> bool
        requires { counter < 3 }
        ensures { result ≡ pit_out counter self.now.board.moment self.now.board.pit }
    {
        self.board.output(counter)
    }

    /// Tells whether the clock chip or a device of the board has the port `port`.
    pub fn has_port(&self, port: u16) -> bool
        ensures { result ≡ has_port port self.now }
    {
        Rtc::is_port(port) || self.board.has_port(port)
    }

    /// Returns how many bytes may arrive on the serial line before one is lost.
    ///
    /// It is up to 16 with FIFOs, else 1 or 0. It is 0 in loop mode, which ignores bytes on the
    /// line.
    pub fn room(&self) -> u8
        ensures { result ≡ room_of self.now.board.serial }
    {
        self.board.room()
    }

    /// Returns the time of one character on the serial line, in nanoseconds.
    pub fn character(&self) -> u64
        ensures { result ≡ character_time self.now.board.serial.divisor self.now.board.serial.lcr }
    {
        self.board.character()
    }

    /// Returns the clock chip.
    pub fn clock(&self) -> &Rtc
        ensures { result.now ≡ self.now.clock }
    {
        &self.clock
    }

    /// Returns the board's devices.
    pub fn board(&self) -> &Devices
        ensures { result.now ≡ self.now.board }
    {
        &self.board
    }

    /// Returns other devices in the same state.
    pub fn copy(&self) -> ClockDevices
        ensures { result ≡ self.now }
    {
        ClockDevices {
            clock: self.clock,
            board: self.board.copy(),
        }
    }

    // Applies an event, before the board's input is updated from the chip's line.
    #[tactic(auto, unfolding(crate::specs::Step::acted))]
    fn act(&mut self, event: Event) -> Answer
        requires { IsTrue (names_wire event) }
        ensures { (result, self.new) ≡ acted event self.old }
    {
        match event {
            Event::Read { port } if Rtc::is_port(port) => self.read_clock(port),
            Event::Write { port, value } if Rtc::is_port(port) => self.write_clock(port, value),
            Event::Wait { ns } => self.wait(ns),
            Event::Wire {
                input: CLOCK_INPUT,
                ..
            } => saying(None),
            event => self.board.event(event),
        }
    }

    // Reads a port of the chip.
    fn read_clock(&mut self, port: u16) -> Answer
        requires { IsTrue (is_port port) }
        ensures { (result, self.new) ≡ clock_read port self.old }
    {
        saying(Some(self.clock.read(port)))
    }

    // Writes a byte to a port of the chip.
    fn write_clock(&mut self, port: u16, value: u8) -> Answer
        requires { IsTrue (is_port port) }
        ensures { (result, self.new) ≡ clock_written port value self.old }
    {
        self.clock.write(port, value);
        saying(None)
    }

    // Lets time pass on the board, and on the chip as far as the board's moment advances.
    #[tactic(auto, unfolding(crate::specs::Step::waited))]
    fn wait(&mut self, ns: u64) -> Answer
        ensures { (result, self.new) ≡ waited ns self.old }
    {
        let from = self.board.now();
        let answer = self.board.event(Event::Wait { ns });
        self.clock.passed(from, self.board.now());
        answer
    }
}

// Returns an answer of the chip, without bytes.
#[tactic(auto, unfolding(crate::specs::Step::saying))]
fn saying(value: Option<u8>) -> Answer
    ensures { result ≡ saying_of value }
{
    Answer {
        value,
        int: false,
        sent: ArrayVec::new(),
    }
}
