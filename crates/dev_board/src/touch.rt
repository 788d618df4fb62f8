// What an event changes among the devices that drive the lines.
ghost use Rattle.std.specs.Prelude.{◌≡◌};
ghost use Rattle.dev_board.specs.Touch.{asks_timer as asks_timer_of, calm_after, asks_port as asks_port_of, asks_int as asks_int_of, is_access as is_access_of, is_nothing as is_nothing_of, is_command as is_command_of, ack_touches as ack_touches_of, is_untouched as is_untouched_of, is_quiet as is_quiet_of, leaves_port as leaves_port_of, time_touches as time_touches_of};

use crate::wires::{DRIVEN, WIRES, is_high};
use dev_base::has;

/// What the master says before an event.
#[derive(Clone, Copy)]
pub(crate) struct Before {
    /// The lines that it remembers.
    pub lines: u16,
    /// Its interrupt output.
    pub int: bool,
}

/// What an event touches, and so what must be computed again before the lines are updated.
#[derive(Clone, Copy)]
pub(crate) enum Touch {
    /// Nothing that drives a line.
    Untouched,
    /// The timer chip: OUT of counter 0 may have changed.
    Timer,
    /// The serial port: its line may have changed.
    Port,
    /// The pair, but not what its lines say: INT may have changed.
    Command,
    /// The pair itself.
    Access,
    /// All that changes with time: the timer chip and the serial port.
    Time,
}

impl Touch {
    /// Tells whether nothing that drives a line was touched.
    pub(crate) fn is_nothing(self) -> bool
        ensures { result ≡ is_nothing_of self }
    {
        matches!(self, Touch::Untouched | Touch::Command)
    }

    /// Tells whether OUT of counter 0 must be computed again.
    pub(crate) fn asks_timer(self) -> bool
        ensures { result ≡ asks_timer_of self }
    {
        matches!(self, Touch::Timer | Touch::Time)
    }

    /// Returns `calm`, before which OUT of counter 0 stays as it is, or 0 if that isn't known now.
    pub(crate) fn calm(self, calm: u64) -> u64
        ensures { result ≡ calm_after self calm }
    {
        if self.asks_timer() { 0 } else { calm }
    }

    /// Tells whether the serial port's line must be computed again.
    pub(crate) fn asks_port(self) -> bool
        ensures { result ≡ asks_port_of self }
    {
        matches!(self, Touch::Port | Touch::Time)
    }

    /// Tells whether INT must be computed again.
    pub(crate) fn asks_int(self) -> bool
        ensures { result ≡ asks_int_of self }
    {
        matches!(self, Touch::Command | Touch::Access)
    }

    /// Tells whether the lines must be taken again, since the pair was accessed.
    pub(crate) fn is_access(self) -> bool
        ensures { result ≡ is_access_of self }
    {
        matches!(self, Touch::Access)
    }
}

/// Tells whether a write is a command to the master that leaves its requests and its lines.
#[tactic(auto, unfolding(crate::specs::Touch::is_command))]
pub(crate) fn is_command(port: u16, value: u8) -> bool
    ensures { result ≡ is_command_of port value }
{
    port == 0x21 || port == 0x20 && !has(value, 4)
}

/// Returns what an acknowledge touches.
#[tactic(auto, unfolding(crate::specs::Touch::ack_touches))]
pub(crate) fn ack_touches(lines: u16) -> Touch
    ensures { result ≡ ack_touches_of lines }
{
    if is_high(lines, 2) {
        Touch::Access
    } else {
        Touch::Command
    }
}

/// Tells whether nothing that drives a line was touched, and the wires are as before.
#[tactic(auto, unfolding(crate::specs::Touch::is_untouched))]
pub(crate) fn is_untouched(touch: Touch, edge: bool, wires: u16, lines: u16) -> bool
    ensures { result ≡ is_untouched_of touch edge wires lines }
{
    touch.is_nothing() && !edge && wires == lines & WIRES
}

/// Tells whether these inputs leave the pair unchanged.
#[tactic(auto, unfolding(crate::specs::Touch::is_quiet))]
pub(crate) fn is_quiet(touch: Touch, edge: bool, inputs: u16, lines: u16) -> bool
    ensures { result ≡ is_quiet_of touch edge inputs lines }
{
    !touch.is_access() && !edge && inputs == lines & DRIVEN
}

/// Tells whether a read of this register that returns `value` leaves the serial port unchanged.
#[tactic(auto, unfolding(crate::specs::Touch::leaves_port))]
pub(crate) fn leaves_port(offset: u8, value: u8) -> bool
    ensures { result ≡ leaves_port_of offset value }
{
    if offset == 5 {
        !has(value, 1)
    } else {
        offset != 0 && offset != 2
    }
}

/// Returns what the passing of time touches; `is_calm` tells that OUT of counter 0 stays.
pub(crate) fn time_touches(is_calm: bool) -> Touch
    ensures { result ≡ time_touches_of is_calm }
{
    if is_calm { Touch::Port } else { Touch::Time }
}
