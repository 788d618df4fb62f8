// A copy of a port, and what it sends, waits for and has room for next.
ghost use Rattle.std.specs.Prelude.{◌≡◌, ◌≤◌, ℕ, length, IsTrue, MatchOption, ◌↔◌, true, false};

use crate::fifo::FIFO_BYTES;
use crate::mode::{LONGEST_CHARACTER, character_time};
use crate::registers::{DLAB, LOOP};
use crate::serial::Serial;
use crate::shift::Shift;
use dev_base::has;

impl Serial {
    ghost use Rattle.dev_serial.specs.Access.{lsr_read, queues, room_of, written};
    ghost use Rattle.dev_serial.specs.Port.{line_of};
    ghost use Rattle.dev_serial.specs.Transmit.{IsSentAfter};
    ghost use Rattle.dev_serial.specs.Line.{character_time as character_time_of};

    /// Returns another port in the same state.
    pub fn copy(&self) -> Serial
        ensures { result ≡ self.now }
    {
        Serial {
            receiver: self.receiver.copy(),
            transmitter: self.transmitter.copy(),
            ..*self
        }
    }

    /// Returns the shift register's byte and the moment at which it is sent, or `None` if the register is idle.
    pub fn shift(&self) -> Option<Shift>
        ensures { result ≡ self.now.transmitter.shift }
    {
        self.transmitter.shift()
    }

    /// Returns whether no byte leaves the shift register by the moment `to`.
    #[inline(always)]
    pub fn is_still(&self, to: u64) -> bool
        ensures { IsTrue result ↔ IsSentAfter to self.now.transmitter.shift }
    {
        match self.transmitter.shift() {
            None => true,
            Some(shift) => to < shift.due,
        }
    }

    /// Returns what a read of the Line Status Register returns, unless the read would clear the
    /// overrun flag.
    #[inline(always)]
    pub fn status(&self) -> Option<u8>
        ensures { MatchOption result (self.now.receiver.overrun ≡ true)
            (λ value. (value, self.now) ≡ lsr_read self.now) }
    {
        if self.receiver.has_overrun() {
            return None;
        }
        Some(self.line_status())
    }

    /// Writes `byte` to the Transmitter Holding Register if all that it does is to wait there. This
    /// is so if the shift register is busy and the latch is clear. Otherwise nothing happens, and it
    /// returns `false`.
    #[inline(always)]
    #[tactic(auto, unfolding(crate::specs::Access::queues))]
    pub fn queue(&mut self, byte: u8) -> bool
        ensures queues { result ≡ queues self.old }
        ensures queued { result ≡ true → (now : ℕ) → self.new ≡ written 0 byte now self.old }
        ensures stays { result ≡ false → self.new ≡ self.old }
        ensures line { (now : ℕ) → line_of now self.new ≡ line_of now self.old }
    {
        if has(self.lcr, DLAB) || self.thr_empty || self.transmitter.shift().is_none() {
            return false;
        }
        self.transmitter.queue(self.fifos.is_some(), byte);
        true
    }

    /// Returns the number of bytes that wait for the shift register, at most 16.
    pub fn waiting(&self) -> usize
        ensures { result ≡ length self.now.transmitter.waiting }
    {
        self.transmitter.waiting().len()
    }

    /// Returns the moment of the character timeout, if one runs.
    pub fn timeout(&self) -> Option<u64>
        ensures { result ≡ self.now.receiver.timeout }
    {
        self.receiver.timeout()
    }

    /// Returns how many bytes may arrive on the line before one is lost: up to 16 with FIFOs, else 1 or 0.
    ///
    /// It is 0 in loop mode, in which bytes on the line are ignored.
    pub fn room(&self) -> u8
        ensures { result ≡ room_of self.now }
    {
        let held = self.receiver.held().len();
        if has(self.mcr, LOOP) {
            0
        } else if self.fifos.is_some() {
            (FIFO_BYTES - held) as u8
        } else {
            (1 - held) as u8
        }
    }

    /// Returns the time of one character on the line, in nanoseconds.
    pub fn character(&self) -> u64
        ensures time { result ≡ character_time_of self.now.divisor self.now.lcr }
        ensures longest { result ≤ LONGEST_CHARACTER }
    {
        character_time(self.divisor, self.lcr)
    }
}
