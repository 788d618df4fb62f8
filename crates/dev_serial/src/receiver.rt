// The receiving half of a port.
ghost use Rattle.std.specs.Prelude.{◌≡◌, ◌≤◌, length, false};
ghost use Rattle.dev_serial.specs.declared.fifo.TheConstants.{FIFO_BYTES};

use crate::fifo::{FIFO_BYTES, copied};
use crate::mode::{LONGEST_CHARACTER, Mode};
use arrayvec::ArrayVec;
use dev_base::LAST_MOMENT;
use std::marker::Model;

/// The Receiver Buffer Register or, with FIFOs, the receive FIFO; the overrun flag; and the
/// character timeout.
#[derive(Drop)]
pub(crate) struct Receiver {
    held: ArrayVec<u8, FIFO_BYTES>,
    overrun: bool,
    timeout: Option<u64>,
}

impl Model for Receiver {
    ghost use Rattle.dev_serial.specs.Parts.{ReceiverState};

    ghost Value = { ReceiverState };

    ghost use Rattle.dev_serial.specs.ReceiverView.{receiver_view};

    ghost view = { receiver_view };
}

impl Receiver {
    ghost use Rattle.dev_serial.specs.Receive.{received, taken, taken_at, emptied, without_overrun};

    /// Creates a receiver that holds the bytes `held`, the oldest first.
    pub fn new(held: ArrayVec<u8, FIFO_BYTES>, overrun: bool, timeout: Option<u64>) -> Receiver
        ensures { result ≡ record { held = held.items; overrun = overrun; timeout = timeout } }
    {
        Receiver {
            held,
            overrun,
            timeout,
        }
    }

    /// Returns another receiver in the same state.
    pub fn copy(&self) -> Receiver
        ensures { result ≡ self.now }
    {
        Receiver {
            held: copied(&self.held),
            overrun: self.overrun,
            timeout: self.timeout,
        }
    }

    /// Receives `byte` at the moment `at`, in nanoseconds.
    #[tactic(auto, unfolding(crate::specs::Receive::received))]
    pub fn receive(&mut self, mode: Mode, byte: u8, at: u64)
        requires longest { mode.character ≤ LONGEST_CHARACTER }
        requires moment { at ≤ LAST_MOMENT }
        ensures state { self.new ≡ received mode byte at self.old }
        ensures short { length self.old.held ≤ FIFO_BYTES → length self.new.held ≤ FIFO_BYTES }
        ensures one { mode.has_fifos ≡ false → length self.new.held ≤ 1 }
    {
        if mode.has_fifos {
            if self.held.is_full() {
                self.overrun = true;
            } else {
                self.held.push(byte);
            }
            if mode.times_out {
                self.timeout = Some(at + 4 * mode.character);
            }
        } else {
            if !self.held.is_empty() {
                self.overrun = true;
            }
            self.held.clear();
            self.held.push(byte);
        }
    }

    /// Removes and returns the oldest byte, or returns 0 if none is held.
    #[tactic(auto, unfolding(crate::specs::Receive::taken_at))]
    pub fn take(&mut self, mode: Mode, at: u64) -> u8
        requires longest { mode.character ≤ LONGEST_CHARACTER }
        requires moment { at ≤ LAST_MOMENT }
        ensures state { (result, self.new) ≡ taken mode at self.old }
        ensures fewer { length self.new.held ≤ length self.old.held }
    {
        if self.held.is_empty() {
            return 0;
        }
        let byte = self.held.remove(0);
        if mode.times_out {
            self.timeout = if self.held.is_empty() {
                None
            } else {
                Some(at + 4 * mode.character)
            };
        }
        byte
    }

    /// Removes all bytes and stops the timeout. The overrun flag stays.
    pub fn empty(&mut self)
        ensures { self.new ≡ emptied self.old }
    {
        self.held.clear();
        self.timeout = None;
    }

    /// Returns the bytes held, the oldest first, at most 16.
    pub fn held(&self) -> &ArrayVec<u8, FIFO_BYTES>
        ensures items { result.now.items ≡ self.now.held }
    {
        &self.held
    }

    /// Reports whether a byte was lost or replaced since the flag was last cleared.
    pub fn has_overrun(&self) -> bool
        ensures { result ≡ self.now.overrun }
    {
        self.overrun
    }

    /// Clears the overrun flag.
    pub fn clear_overrun(&mut self)
        ensures { self.new ≡ without_overrun self.old }
    {
        self.overrun = false;
    }

    /// Returns the moment of the character timeout, in nanoseconds, if it runs.
    pub fn timeout(&self) -> Option<u64>
        ensures { result ≡ self.now.timeout }
    {
        self.timeout
    }
}
