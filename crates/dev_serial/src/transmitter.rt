// The sending half of a port.
ghost use Rattle.std.specs.Prelude.{◌≡◌, ◌≤◌, ◌+◌, ◌++◌, length, Some, [], ◌∷◌, false};
ghost use Rattle.dev_serial.specs.Transmit.{CanSend, Sends, on_line, looped_in, transmitter_of};
ghost use Rattle.dev_serial.specs.Parts.{IsShort};
ghost use Rattle.dev_serial.specs.declared.fifo.TheConstants.{FIFO_BYTES};

use crate::fifo::{FIFO_BYTES, copied};
use crate::mode::{LONGEST_CHARACTER, Mode};
use crate::receiver::Receiver;
use crate::shift::Shift;
use arrayvec::ArrayVec;
use dev_base::LAST_MOMENT;
use std::marker::Model;

/// The most bytes that one [`advance`](crate::Serial::advance) sends: a full FIFO and the shift
/// register.
pub const MOST_SENT: usize = FIFO_BYTES + 1;

/// The Transmitter Holding Register or, with FIFOs, the transmit FIFO; and the shift register after
/// it, which may be idle.
#[derive(Drop)]
pub(crate) struct Transmitter {
    waiting: ArrayVec<u8, FIFO_BYTES>,
    shift: Option<Shift>,
}

impl Model for Transmitter {
    ghost use Rattle.dev_serial.specs.Parts.{TransmitterState};

    ghost Value = { TransmitterState };

    ghost use Rattle.dev_serial.specs.TransmitterView.{transmitter_view};

    ghost view = { transmitter_view };
}

impl Transmitter {
    ghost use Rattle.dev_serial.specs.Transmit.{after_write, queued};

    /// Creates a transmitter with the bytes `waiting`, the oldest first, and the shift register
    /// `shift`.
    pub fn new(waiting: ArrayVec<u8, FIFO_BYTES>, shift: Option<Shift>) -> Transmitter
        ensures { result ≡ record { waiting = waiting.items; shift = shift } }
    {
        Transmitter { waiting, shift }
    }

    /// Returns another transmitter in the same state.
    pub fn copy(&self) -> Transmitter
        ensures { result ≡ self.now }
    {
        Transmitter {
            waiting: copied(&self.waiting),
            shift: self.shift,
        }
    }

    /// Writes `byte` behind the bytes that wait. The shift register stays.
    #[tactic(auto, unfolding(crate::specs::Transmit::queued))]
    pub fn queue(&mut self, has_fifos: bool, byte: u8)
        ensures state { self.new ≡ record self.old { waiting = queued has_fifos byte self.old.waiting } }
        ensures short { length self.old.waiting ≤ FIFO_BYTES
            → length self.new.waiting ≤ FIFO_BYTES }
        ensures one { has_fifos ≡ false → length self.new.waiting ≤ 1 }
    {
        if !has_fifos {
            self.waiting.clear();
        }
        if !self.waiting.is_full() {
            self.waiting.push(byte);
        }
    }

    /// Writes `byte` to be sent.
    ///
    /// If the shift register is idle, it takes the first byte at once, which is sent at the moment
    /// `due`.
    #[tactic(auto, unfolding(crate::specs::Transmit::loaded))]
    pub fn write(&mut self, has_fifos: bool, byte: u8, due: u64)
        ensures state { self.new ≡ after_write has_fifos byte due self.old }
        ensures short { length self.old.waiting ≤ FIFO_BYTES
            → length self.new.waiting ≤ FIFO_BYTES }
        ensures one { has_fifos ≡ false → length self.new.waiting ≤ 1 }
    {
        self.queue(has_fifos, byte);
        if self.shift.is_none() && !self.waiting.is_empty() {
            let byte = self.waiting.remove(0);
            self.shift = Some(Shift { byte, due });
        }
    }

    /// Removes all bytes that wait. The shift register stays.
    pub fn empty(&mut self)
        ensures { self.new ≡ record self.old { waiting = [] } }
    {
        self.waiting.clear();
    }

    /// Returns the bytes that wait to enter the shift register, the oldest first, at most 16.
    pub fn waiting(&self) -> &ArrayVec<u8, FIFO_BYTES>
        ensures items { result.now.items ≡ self.now.waiting }
    {
        &self.waiting
    }

    /// Returns the shift register's contents, if it isn't idle.
    pub fn shift(&self) -> Option<Shift>
        ensures { result ≡ self.now.shift }
    {
        self.shift
    }

    /// Sends the bytes that are due by the moment `to`, and returns those that left on the line.
    ///
    /// In loop mode the bytes are received by `receiver` instead.
    #[tactic(auto, unfolding(crate::specs::Transmit::run_until, crate::specs::Transmit::departures, crate::specs::Transmit::gone, crate::specs::Transmit::arrived))]
    pub fn advance(
        &mut self,
        mode: Mode,
        to: u64,
        receiver: &mut Receiver,
    ) -> ArrayVec<u8, MOST_SENT>
        requires { CanSend mode to self.old.waiting receiver.old }
        ensures { Sends mode to self.old self.new receiver.old receiver.new result.items }
    {
        let Some(first) = self.shift else {
            return ArrayVec::new();
        };
        let (line, left) = send_due(mode, to, first, &mut self.waiting, receiver);
        self.shift = left;
        line
    }
}

/// Sends the bytes that are due, one by one.
fn send_due(
    mode: Mode,
    to: u64,
    first: Shift,
    waiting: &mut ArrayVec<u8, FIFO_BYTES>,
    receiver: &mut Receiver,
) -> (ArrayVec<u8, MOST_SENT>, Option<Shift>)
    requires { CanSend mode to waiting.old.items receiver.old }
    ensures { Sends mode to (transmitter_of waiting.old.items (Some first))
        (transmitter_of waiting.new.items result.1) receiver.old receiver.new result.0.items }
{
    let mut line = ArrayVec::new();
    let mut shift = first;
    'bytes: loop {
        if shift.due > to {
            return (line, Some(shift));
        }
        leave(mode, shift, &mut line, receiver);
        if waiting.is_empty() {
            return (line, None);
        }
        shift = Shift {
            byte: waiting.remove(0),
            due: shift.due + mode.character,
        };
    }
}

/// Sends the byte in the shift register, to the line or to the receiver.
#[tactic(auto, unfolding(crate::specs::Transmit::arrived))]
fn leave(mode: Mode, shift: Shift, line: &mut ArrayVec<u8, MOST_SENT>, receiver: &mut Receiver)
    requires longest { mode.character ≤ LONGEST_CHARACTER }
    requires moment { shift.due ≤ LAST_MOMENT }
    requires room { length line.old.items ≤ FIFO_BYTES }
    requires few_held { IsShort mode.has_fifos receiver.old.held }
    ensures line { line.new.items ≡ line.old.items ++ on_line mode (shift ∷ []) }
    ensures looped { receiver.new ≡ looped_in mode (shift ∷ []) receiver.old }
    ensures more { length line.new.items ≤ length line.old.items + 1 }
    ensures still_few { IsShort mode.has_fifos receiver.new.held }
{
    if mode.is_looped {
        receiver.receive(mode, shift.byte, shift.due);
    } else {
        line.push(shift.byte);
    }
}
