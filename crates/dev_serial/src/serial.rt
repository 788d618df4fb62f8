// A serial port.
ghost use Rattle.dev_serial.specs.Access.{msr_of, switch_of as switch_of_number};
ghost use Rattle.dev_base.specs.Levels.{IsLevel};
ghost use Rattle.std.specs.Prelude.{◌≡◌, ◌≤◌, ◌+◌, length, ◌&&◌};
ghost use Rattle.dev_serial.specs.declared.transmitter.TheConstants.{MOST_SENT};

use crate::interrupt::Interrupt;
use crate::levels::{FIFOS_SINCE, TIMEOUT_SINCE};
use crate::mode::{LONGEST_CHARACTER, Mode, character_time};
use crate::receiver::Receiver;
use crate::registers::{
    CTS, DCD, DLAB, DR, DSR, DTR, ELSI, ERBFI, ETBEI, FIFO_ENABLE, FIFOS_ENABLED, IER, IER_BITS,
    IIR_FCR, LCR, LOOP, LSR, MCR, MCR_BITS, MODEM_READY, MSR, OE, OUT1, OUT2, RBR_THR, RCVR_RESET,
    RI, RTS, TEMT, THRE, XMIT_RESET, bit_where,
};
use crate::transmitter::{MOST_SENT, Transmitter};
use crate::trigger::Trigger;
use arrayvec::ArrayVec;
use dev_base::{LAST_MOMENT, bits_where, has};
use std::marker::Model;

/// A serial port with its registers, its two lists of bytes and its shift register.
///
/// Levels are 1 to 4: a 16450 at level 1, a 16550A without the character timeout at level 2, and
/// one with it from level 3 on. Parity, framing and break errors don't occur, and OUT2 doesn't gate
/// interrupts.
#[derive(Drop)]
pub struct Serial {
    pub(crate) level: u8,
    pub(crate) divisor: u16,
    pub(crate) ier: u8,
    pub(crate) lcr: u8,
    pub(crate) mcr: u8,
    pub(crate) scr: u8,
    pub(crate) fifos: Option<Trigger>,
    pub(crate) receiver: Receiver,
    pub(crate) transmitter: Transmitter,
    pub(crate) thr_empty: bool,
}

impl Model for Serial {
    ghost use Rattle.dev_serial.specs.Port.{Port};

    ghost Value = { Port };

    ghost use Rattle.dev_serial.specs.View.{port_view};
    ghost use Rattle.dev_serial.specs.Port.{HasShortLists};

    ghost view = { port_view };

    ghost invariant = { λ s. HasShortLists (port_view s) };
}

impl Serial {
    ghost use Rattle.dev_serial.specs.Transmit.{IsSentAfter};
    ghost use Rattle.dev_serial.specs.Port.{power_on, mode_of, is_data_ready, has_timed_out, interrupt, line_of};
    ghost use Rattle.dev_serial.specs.Access.{lsr_of, byte_read, id_read, lsr_read, read_of, thr_written, ier_written, receiver_cleared, transmitter_cleared, fcr_written, written, came_in, advanced};

    /// Creates a port of the level `level`, from 1 to 4, as it is at power on.
    ///
    /// Its divisor is 12, and all else is empty or 0.
    #[tactic(auto, unfolding(crate::specs::Port::power_on))]
    pub fn new(level: u8) -> Serial
        requires { IsLevel level }
        ensures state { result ≡ power_on level }
        ensures level { result.level ≡ level }
    {
        Serial {
            level,
            divisor: 12,
            ier: 0,
            lcr: 0,
            mcr: 0,
            scr: 0,
            fifos: None,
            receiver: Receiver::new(ArrayVec::new(), false, None),
            transmitter: Transmitter::new(ArrayVec::new(), None),
            thr_empty: false,
        }
    }

    // Returns how characters are sent and received.
    fn mode(&self) -> Mode
        ensures mode { result ≡ mode_of self.now }
        ensures longest { result.character ≤ LONGEST_CHARACTER }
    {
        let has_fifos = self.fifos.is_some();
        Mode {
            character: character_time(self.divisor, self.lcr),
            has_fifos,
            times_out: self.level >= TIMEOUT_SINCE && has_fifos,
            is_looped: has(self.mcr, LOOP),
        }
    }

    // Returns the identified interrupt.
    #[tactic(auto, unfolding(crate::specs::Port::interrupt))]
    pub(crate) fn interrupt(&self, now: u64) -> Interrupt
        ensures { result ≡ interrupt now self.now }
    {
        if has(self.ier, ELSI) && self.receiver.has_overrun() {
            return Interrupt::LineStatus;
        }
        if has(self.ier, ERBFI) && self.is_data_ready() {
            return Interrupt::ReceivedData;
        }
        if has(self.ier, ERBFI) && self.has_timed_out(now) {
            return Interrupt::CharacterTimeout;
        }
        if has(self.ier, ETBEI) && self.thr_empty {
            return Interrupt::ThrEmpty;
        }
        Interrupt::NonePending
    }

    // Reports whether enough bytes are held to request an interrupt.
    fn is_data_ready(&self) -> bool
        ensures { result ≡ is_data_ready self.now.fifos self.now.receiver.held }
    {
        let held = self.receiver.held().len();
        match self.fifos {
            None => held > 0,
            Some(trigger) => held >= trigger.bytes(),
        }
    }

    // Reports whether the character timeout has passed.
    fn has_timed_out(&self, now: u64) -> bool
        ensures { result ≡ has_timed_out now self.now }
    {
        self.level >= TIMEOUT_SINCE
            && match self.receiver.timeout() {
                None => false,
                Some(timeout) => timeout <= now,
            }
    }

    /// Reads the register at `offset`, from 0 to 7, at the moment `now`.
    ///
    /// # Requires
    ///
    /// `offset` is at most 7, and `now` at most `LAST_MOMENT`.
    #[tactic(auto, unfolding(crate::specs::Access::read_of))]
    pub fn read(&mut self, offset: u8, now: u64) -> u8
        requires offset { offset ≤ 7 }
        requires moment { now ≤ LAST_MOMENT }
        ensures state { (result, self.new) ≡ read_of offset now self.old }
        ensures level { self.new.level ≡ self.old.level }
    {
        match offset {
            RBR_THR if has(self.lcr, DLAB) => (self.divisor % 256) as u8,
            RBR_THR => self.read_byte(now),
            IER if has(self.lcr, DLAB) => (self.divisor / 256) as u8,
            IER => self.ier,
            IIR_FCR => self.read_id(now),
            LCR => self.lcr,
            MCR => self.mcr,
            LSR => self.read_line_status(),
            MSR => modem_status(self.mcr),
            _ => self.scr,
        }
    }

    // Removes and returns the oldest received byte ("Receiver Buffer Register").
    #[inline(never)]
    fn read_byte(&mut self, now: u64) -> u8
        requires { now ≤ LAST_MOMENT }
        ensures { (result, self.new) ≡ byte_read now self.old }
    {
        let mode = self.mode();
        self.receiver.take(mode, now)
    }

    // Reads the "Interrupt Identification Register". Doing so clears the interrupt of an empty
    // transmit list.
    #[inline(never)]
    #[tactic(auto, unfolding(crate::specs::Access::iir_of))]
    fn read_id(&mut self, now: u64) -> u8
        ensures { (result, self.new) ≡ id_read now self.old }
    {
        let interrupt = self.interrupt(now);
        if interrupt.is_thr_empty() {
            self.thr_empty = false;
        }
        interrupt.number() | bits_where(self.fifos.is_some(), FIFOS_ENABLED)
    }

    // Reads the "Line Status Register". Doing so clears the overrun flag.
    fn read_line_status(&mut self) -> u8
        ensures { (result, self.new) ≡ lsr_read self.old }
    {
        let status = self.line_status();
        self.receiver.clear_overrun();
        status
    }

    // Returns what the Line Status Register reads.
    #[inline(always)]
    #[tactic(auto, unfolding(crate::specs::Access::lsr_of))]
    pub(crate) fn line_status(&self) -> u8
        ensures { result ≡ lsr_of self.now }
    {
        let is_empty = self.transmitter.waiting().is_empty();
        bit_where(!self.receiver.held().is_empty(), DR)
            | bit_where(self.receiver.has_overrun(), OE)
            | bit_where(is_empty, THRE)
            | bit_where(is_empty && self.transmitter.shift().is_none(), TEMT)
    }

    /// Writes `value` to the register at `offset`, from 0 to 7, at the moment `now`.
    ///
    /// # Requires
    ///
    /// `offset` is at most 7, and `now` at most `LAST_MOMENT`.
    #[tactic(auto, unfolding(crate::specs::Access::written))]
    pub fn write(&mut self, offset: u8, value: u8, now: u64)
        requires offset { offset ≤ 7 }
        requires moment { now ≤ LAST_MOMENT }
        ensures state { self.new ≡ written offset value now self.old }
        ensures level { self.new.level ≡ self.old.level }
    {
        match offset {
            RBR_THR if has(self.lcr, DLAB) => {
                self.divisor = self.divisor / 256 * 256 + u16::from(value);
            }
            RBR_THR => self.write_byte(value, now),
            IER if has(self.lcr, DLAB) => {
                self.divisor = u16::from(value) * 256 + self.divisor % 256;
            }
            IER => self.write_enable(value),
            IIR_FCR => {
                if self.level >= FIFOS_SINCE {
                    self.write_fifo_control(value);
                }
            }
            LCR => self.lcr = value,
            MCR => self.mcr = value & MCR_BITS,
            LSR | MSR => {}
            _ => self.scr = value,
        }
    }

    // Writes the "Transmitter Holding Register". This clears the latch, which is set again if the
    // byte moves on to the shift register at once.
    #[tactic(auto, unfolding(crate::specs::Access::thr_written, crate::specs::Transmit::loaded))]
    fn write_byte(&mut self, byte: u8, now: u64)
        requires { now ≤ LAST_MOMENT }
        ensures state { self.new ≡ thr_written byte now self.old }
        ensures level { self.new.level ≡ self.old.level }
    {
        let has_fifos = self.fifos.is_some();
        if self.transmitter.shift().is_none() {
            let due = now + character_time(self.divisor, self.lcr);
            self.transmitter.write(has_fifos, byte, due);
        } else {
            self.transmitter.queue(has_fifos, byte);
        }
        self.thr_empty = self.transmitter.waiting().is_empty();
    }

    // Writes the "Interrupt Enable Register". Enabling the interrupt of an empty transmit list
    // samples the list.
    #[tactic(auto, unfolding(crate::specs::Access::ier_written))]
    fn write_enable(&mut self, value: u8)
        ensures state { self.new ≡ ier_written value self.old }
        ensures level { self.new.level ≡ self.old.level }
    {
        let enabled = value & IER_BITS;
        if !has(self.ier, ETBEI) && has(enabled, ETBEI) {
            self.thr_empty = self.transmitter.waiting().is_empty();
        }
        self.ier = enabled;
    }

    // Writes the "FIFO Control Register". Switching the FIFOs on or off clears both lists. While
    // they stay on, one bit clears each list.
    #[tactic(auto, unfolding(crate::specs::Access::fcr_written, crate::specs::Access::fcr_cleared))]
    fn write_fifo_control(&mut self, value: u8)
        ensures state { self.new ≡ fcr_written value self.old }
        ensures level { self.new.level ≡ self.old.level }
    {
        let fifos = switch_of(value);
        match (self.fifos, fifos) {
            (None, None) => {}
            (Some(_), Some(_)) => self.clear(has(value, RCVR_RESET), has(value, XMIT_RESET)),
            _ => self.clear(true, true),
        }
        self.fifos = fifos;
    }

    // Clears the receive list, the transmit list, or both. If bytes waited, the latch is set.
    fn clear(&mut self, held: bool, waiting: bool)
        ensures state { self.new ≡ transmitter_cleared waiting (receiver_cleared held self.old) }
        ensures level { self.new.level ≡ self.old.level }
    {
        if held {
            self.receiver.empty();
        }
        if waiting {
            if !self.transmitter.waiting().is_empty() {
                self.thr_empty = true;
            }
            self.transmitter.empty();
        }
    }

    /// Receives `value` from the line at the moment `now`, at most `LAST_MOMENT`; loop mode ignores
    /// it.
    #[tactic(auto, unfolding(crate::specs::Access::came_in))]
    pub fn byte_in(&mut self, value: u8, now: u64)
        requires { now ≤ LAST_MOMENT }
        ensures state { self.new ≡ came_in value now self.old }
        ensures level { self.new.level ≡ self.old.level }
    {
        let mode = self.mode();
        if !mode.is_looped {
            self.receiver.receive(mode, value, now);
        }
    }

    /// Lets time pass up to `to` and returns the bytes that left on the line, the oldest first.
    ///
    /// In loop mode bytes that leave the shift register are received again at the same moment.
    ///
    /// # Requires
    ///
    /// `to` is at most `LAST_MOMENT`.
    #[inline(always)]
    #[tactic(auto, unfolding(crate::specs::Access::advanced, crate::specs::Transmit::run_until, crate::specs::Transmit::departures, crate::specs::Transmit::gone, crate::specs::Transmit::arrived))]
    pub fn advance(&mut self, to: u64) -> ArrayVec<u8, MOST_SENT>
        requires { to ≤ LAST_MOMENT }
        ensures state { (result.items, self.new) ≡ advanced to self.old }
        ensures level { self.new.level ≡ self.old.level }
        ensures few { length result.items ≤ MOST_SENT }
        ensures none_due { IsSentAfter to self.new.transmitter.shift }
    {
        if self.is_still(to) {
            return ArrayVec::new();
        }
        self.send(to)
    }

    // Lets time pass up to `to` as `advance` does.
    #[inline(never)]
    #[tactic(auto, unfolding(crate::specs::Access::advanced))]
    fn send(&mut self, to: u64) -> ArrayVec<u8, MOST_SENT>
        requires { to ≤ LAST_MOMENT }
        ensures state { (result.items, self.new) ≡ advanced to self.old }
        ensures level { self.new.level ≡ self.old.level }
        ensures few { length result.items ≤ MOST_SENT }
        ensures none_due { IsSentAfter to self.new.transmitter.shift }
    {
        let mode = self.mode();
        let was_empty = self.transmitter.waiting().is_empty();
        let sent = self.transmitter.advance(mode, to, &mut self.receiver);
        if self.transmitter.waiting().is_empty() && !was_empty {
            self.thr_empty = true;
        }
        sent
    }

    /// Returns whether the interrupt line is high at `now`, which it is if an interrupt is
    /// identified.
    #[tactic(auto, unfolding(crate::specs::Port::line_of))]
    pub fn line(&self, now: u64) -> bool
        ensures { result ≡ line_of now self.now }
    {
        self.interrupt(now).is_pending()
    }
}

// Returns the trigger if `value` of the FIFO Control Register switches the FIFOs on.
fn switch_of(value: u8) -> Option<Trigger>
    ensures { result ≡ switch_of_number value }
{
    if has(value, FIFO_ENABLE) {
        Some(Trigger::of_bits(value / 64))
    } else {
        None
    }
}

// Returns what the Modem Status Register reads: in loop mode the modem control's outputs.
#[tactic(auto, unfolding(crate::specs::Access::msr_of))]
fn modem_status(mcr: u8) -> u8
    ensures { result ≡ msr_of mcr }
{
    if has(mcr, LOOP) {
        bit_where(has(mcr, RTS), CTS)
            | bit_where(has(mcr, DTR), DSR)
            | bit_where(has(mcr, OUT1), RI)
            | bit_where(has(mcr, OUT2), DCD)
    } else {
        MODEM_READY
    }
}
