// The devices of a board of either kind.
ghost use Rattle.std.specs.Prelude.{◌≡◌, ◌≤◌, IfSome, length};
ghost use Rattle.dev_base.specs.declared.limits.TheConstants.{LAST_MOMENT};
ghost use Rattle.dev_board.specs.Sound.{IsSound};
ghost use Rattle.dev_pit.specs.Counter.{LoadedBy};
ghost use Rattle.dev_pit.specs.Turns.{AreTurns};
ghost use Rattle.dev_due.specs.Due.{is_shown as is_shown_by};
ghost use Rattle.dev_due.specs.Boards.{IsEnd, character_of, devices_of, shows_at, timer_of};

use dev_board::{Answer, Devices, Event};
use dev_clock::ClockDevices;
use dev_pit::Turns;
use dev_serial::{Serial, Shift};

/// The devices of a board of one of the two kinds.
#[derive(Clone, Copy)]
pub(crate) enum Board<'a> {
    Isa(&'a Devices),
    Clock(&'a ClockDevices),
}

impl<'a> Board<'a> {
    /// Returns the devices without a clock chip.
    pub(crate) fn devices(self) -> &'a Devices
        ensures same { result.now ≡ devices_of self.entry }
        ensures sound { IsSound (devices_of self.entry) }
    {
        match self {
            Board::Isa(devices) => {
                devices.is_sound();
                devices
            }
            Board::Clock(devices) => {
                let devices = devices.board();
                devices.is_sound();
                devices
            }
        }
    }

    /// Returns the present moment.
    pub(crate) fn now(self) -> u64
        ensures moment { result ≡ (devices_of self.entry).moment }
        ensures last { result ≤ LAST_MOMENT }
    {
        self.devices().now()
    }

    /// Returns moments by which OUT of counter 0 has done all that it does from `base` on.
    pub(crate) fn turns(self, base: u64) -> Turns
        requires from { (devices_of self).moment ≤ base }
        requires last { base ≤ LAST_MOMENT }
        ensures turns { AreTurns result (timer_of self.entry) base }
        ensures loaded { LoadedBy (devices_of self.entry).moment (timer_of self.entry).loaded_at }
    {
        self.devices().pit().turns(0, base)
    }

    // Returns the serial port.
    fn serial(self) -> &'a Serial
        ensures { result.now ≡ (devices_of self.entry).serial }
    {
        self.devices().serial()
    }

    /// Returns the moment of the character timeout, if one runs.
    pub(crate) fn timeout(self) -> Option<u64>
        ensures { result ≡ (devices_of self.entry).serial.receiver.timeout }
    {
        self.serial().timeout()
    }

    /// Returns the byte in the shift register and when it is sent, if there is one.
    pub(crate) fn shift(self) -> Option<Shift>
        ensures shift { result ≡ (devices_of self.entry).serial.transmitter.shift }
        ensures soon { IfSome result (λ shift. shift.due ≤ 4500000000000000000) }
    {
        let devices = self.devices();
        devices.serial().shift()
    }

    /// Returns how many bytes wait for the shift register.
    pub(crate) fn waiting(self) -> usize
        ensures waiting { result ≡ length (devices_of self.entry).serial.transmitter.waiting }
        ensures few { result ≤ 16 }
    {
        let devices = self.devices();
        devices.serial().waiting()
    }

    /// Returns the time of one character on the serial line.
    pub(crate) fn character(self) -> u64
        ensures time { result ≡ character_of self.entry }
        ensures longest { result ≤ 6826562500 }
    {
        self.serial().character()
    }

    /// Returns when a period of the clock chip ends next, if there is such a chip and it counts.
    pub(crate) fn next_end(self) -> Option<u64>
        ensures { IsEnd self.entry result }
    {
        match self {
            Board::Isa(_) => None,
            Board::Clock(devices) => devices.clock().next_end(devices.now()),
        }
    }

    /// Tells whether a wait up to moment `at` shows something.
    #[tactic(auto, unfolding(dev_board::specs::Step::names_wire))]
    pub(crate) fn shows(self, at: u64) -> bool
        requires { (devices_of self).moment ≤ at }
        ensures { result ≡ shows_at self.entry at }
    {
        let wait = Event::Wait {
            ns: at - self.now(),
        };
        match self {
            Board::Isa(devices) => is_shown(&devices.copy().event(wait), devices.int()),
            Board::Clock(devices) => is_shown(&devices.copy().event(wait), devices.int()),
        }
    }
}

// Tells whether an answer shows something after the interrupt output `before`.
fn is_shown(answer: &Answer, before: bool) -> bool
    ensures { result ≡ is_shown_by answer.now before }
{
    answer.int != before || !answer.sent.is_empty()
}
