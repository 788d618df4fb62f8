// The rules that restored numbers have to meet, and the port that they describe.
ghost use Rattle.std.specs.Prelude.{◌≡◌, ◌≤◌, length, IfErr};
ghost use Rattle.dev_serial.specs.PortNumbers.{bytes_held as bytes_held_of, stored_bytes as stored_bytes_of, fifos_of as fifos_of_number, moment_of as moment_of_number, shift_of as shift_of_numbers};
ghost use Rattle.dev_serial.specs.Rules.{is_unused as is_unused_of, is_stored_once as is_stored_once_of};
ghost use Rattle.dev_serial.specs.declared.fifo.TheConstants.{FIFO_BYTES};

use crate::fifo::FIFO_BYTES;
use crate::interrupt::Interrupt;
use crate::levels::{FIFOS_SINCE, TIMEOUT_SINCE};
use crate::mode::LONGEST_CHARACTER;
use crate::numbers::{NEVER, PortNumbers};
use crate::receiver::Receiver;
use crate::registers::{DR, IER_BITS, LSR_BITS, MCR_BITS, OE, TEMT, THRE};
use crate::serial::Serial;
use crate::shift::Shift;
use crate::stored::{Counted, Ring};
use crate::transmitter::Transmitter;
use crate::trigger::Trigger;
use arrayvec::ArrayVec;
use dev_base::{LAST_MOMENT, first_failing, has};

impl PortNumbers {
    ghost use Rattle.dev_serial.specs.PortNumbers.{latch_of, port_of};
    ghost use Rattle.dev_serial.specs.Rules.{registers_hold, fcr_holds, unused_hold, status_holds, shift_holds, timeout_holds, latch_holds, once_holds, rings_hold, restored};

    // Rule 1: registers have only bits that exist.
    #[tactic(auto, unfolding(crate::specs::Rules::registers_hold))]
    fn registers_hold(&self) -> bool
        ensures { result ≡ registers_hold self.now }
    {
        self.ier <= IER_BITS && self.mcr <= MCR_BITS && self.lsr & LSR_BITS == self.lsr
    }

    // Rule 2: the FIFO Control Register is one that the level has.
    #[tactic(auto, unfolding(crate::specs::Rules::fcr_holds))]
    fn fifo_control_holds(&self, level: u8) -> bool
        ensures { result ≡ fcr_holds level self.now }
    {
        self.fcr == 0 || level >= FIFOS_SINCE && self.fcr % 64 == 1
    }

    // Rule 3: bytes are held either in FIFOs or in `rbr` and `thr`.
    #[tactic(auto, unfolding(crate::specs::Rules::unused_hold))]
    fn unused_hold(&self) -> bool
        ensures { result ≡ unused_hold self.now }
    {
        if self.fcr == 0 {
            is_unused(self.rx, self.rx_ring) && is_unused(self.tx, self.tx_ring)
        } else {
            self.rbr == 0 && self.thr == 0
        }
    }

    // Rule 4: the line status agrees with the bytes held.
    #[tactic(auto, unfolding(crate::specs::Rules::status_holds))]
    fn status_holds(&self) -> bool
        ensures { result ≡ status_holds self.now }
    {
        let is_ready = has(self.lsr, DR);
        let is_empty = has(self.lsr, THRE);
        if self.fcr == 0 {
            (is_ready || self.rbr == 0) && (!is_empty || self.thr == 0)
        } else {
            is_ready != is_unused(self.rx, self.rx_ring)
                && is_empty == is_unused(self.tx, self.tx_ring)
        }
    }

    // Rule 5: the line status says whether the shift register is idle, and its byte is sent in
    // time.
    #[tactic(auto, unfolding(crate::specs::Rules::shift_holds))]
    fn shift_holds(&self, now: u64) -> bool
        requires { now ≤ LAST_MOMENT }
        ensures { result ≡ shift_holds now self.now }
    {
        if has(self.lsr, TEMT) {
            self.tx_due == NEVER && has(self.lsr, THRE) && self.tsr == 0
        } else {
            self.tx_due != NEVER && self.tx_due > now && self.tx_due <= now + LONGEST_CHARACTER
        }
    }

    // Rule 6: the timeout runs exactly if it has to, and ends in time.
    #[tactic(auto, unfolding(crate::specs::Rules::timeout_holds))]
    fn timeout_holds(&self, level: u8, now: u64) -> bool
        requires { now ≤ LAST_MOMENT }
        ensures { result ≡ timeout_holds level now self.now }
    {
        if level >= TIMEOUT_SINCE && self.fcr != 0 && !is_unused(self.rx, self.rx_ring) {
            self.timeout_at != NEVER && self.timeout_at <= now + 4 * LONGEST_CHARACTER
        } else {
            self.timeout_at == NEVER
        }
    }

    // Returns the latch of the restored port.
    fn latch(&self) -> bool
        ensures { result ≡ latch_of self.now.iir self.now.thr_ipending }
    {
        if self.thr_ipending == -1 {
            self.iir == Interrupt::ThrEmpty.number()
        } else {
            self.thr_ipending == 1
        }
    }

    // Rule 7: the latch is -1, 0 or 1, and is set only if the transmit list is empty.
    #[tactic(auto, unfolding(crate::specs::Rules::latch_holds))]
    fn latch_holds(&self) -> bool
        ensures { result ≡ latch_holds self.now }
    {
        let is_known = self.thr_ipending == -1 || self.thr_ipending == 0 || self.thr_ipending == 1;
        is_known && (!self.latch() || has(self.lsr, THRE))
    }

    // Rule 9: each direction is stored in only one way.
    #[tactic(auto, unfolding(crate::specs::Rules::once_holds))]
    fn once_holds(&self) -> bool
        ensures { result ≡ once_holds self.now }
    {
        is_stored_once(self.rx, self.rx_ring) && is_stored_once(self.tx, self.tx_ring)
    }

    // Rule 10: both rings are valid.
    #[tactic(auto, unfolding(crate::specs::Rules::rings_hold))]
    fn rings_hold(&self) -> bool
        ensures { result ≡ rings_hold self.now }
    {
        self.rx_ring.holds() && self.tx_ring.holds()
    }

    // Returns the port that these numbers describe.
    #[tactic(auto, unfolding(crate::specs::PortNumbers::port_of))]
    fn to_port(&self, level: u8) -> Serial
        ensures { result ≡ port_of level self.now }
    {
        let held = stored_bytes(self.rx, self.rx_ring);
        let waiting = stored_bytes(self.tx, self.tx_ring);
        let held = bytes_held(self.fcr, has(self.lsr, DR), self.rbr, held);
        let waiting = bytes_held(self.fcr, !has(self.lsr, THRE), self.thr, waiting);
        Serial {
            level,
            divisor: self.divisor,
            ier: self.ier,
            lcr: self.lcr,
            mcr: self.mcr,
            scr: self.scr,
            fifos: fifos_of(self.fcr),
            receiver: Receiver::new(held, has(self.lsr, OE), moment_of(self.timeout_at)),
            transmitter: Transmitter::new(waiting, shift_of(self.tsr, self.tx_due)),
            thr_empty: self.latch(),
        }
    }

    /// Returns the port that these numbers describe, at the level `level` and the moment `now`.
    ///
    /// # Errors
    ///
    /// The number of the first rule that fails, from 1 to 10.
    #[tactic(auto, unfolding(crate::specs::Rules::restored, crate::specs::Rules::id_holds))]
    pub fn restore(&self, level: u8, now: u64) -> Result<Serial, u8>
        requires { now ≤ LAST_MOMENT }
        ensures restored { result ≡ restored level now self.now }
        ensures rule { IfErr result (λ rule. (1 ≤ rule) × (rule ≤ 10)) }
    {
        let port = self.to_port(level);
        let rules = [
            self.registers_hold(),
            self.fifo_control_holds(level),
            self.unused_hold(),
            self.status_holds(),
            self.shift_holds(now),
            self.timeout_holds(level, now),
            self.latch_holds(),
            self.iir == port.interrupt(now).number(),
            self.once_holds(),
            self.rings_hold(),
        ];
        match first_failing(&rules) {
            Some(rule) => Err(rule),
            None => Ok(port),
        }
    }
}

// Reports whether a direction is stored neither in its counted array nor in its ring.
fn is_unused(array: Counted, ring: Ring) -> bool
    ensures { result ≡ is_unused_of array ring }
{
    array.count == 0 && ring.number == 0
}

// Reports whether a direction is stored at most once.
fn is_stored_once(array: Counted, ring: Ring) -> bool
    ensures { result ≡ is_stored_once_of array ring }
{
    array.count == 0 || ring.number == 0
}

// Returns the bytes of a FIFO: those of the counted array if it has any, else those of the ring.
fn stored_bytes(array: Counted, ring: Ring) -> ArrayVec<u8, FIFO_BYTES>
    ensures items { result.items ≡ stored_bytes_of array ring }
    ensures few { length result.items ≤ FIFO_BYTES }
{
    if array.count == 0 {
        ring.list()
    } else {
        array.list()
    }
}

// Returns the bytes of a list. While FIFOs are off these are `byte` alone, if it is held.
fn bytes_held(
    fcr: u8,
    is_held: bool,
    byte: u8,
    bytes: ArrayVec<u8, FIFO_BYTES>,
) -> ArrayVec<u8, FIFO_BYTES>
    ensures items { result.items ≡ bytes_held_of fcr is_held byte bytes.items }
{
    if fcr != 0 {
        return bytes;
    }
    let mut single = ArrayVec::new();
    if is_held {
        single.push(byte);
    }
    single
}

// Returns the trigger if the FIFOs are on.
fn fifos_of(fcr: u8) -> Option<Trigger>
    ensures { result ≡ fifos_of_number fcr }
{
    if fcr == 0 {
        None
    } else {
        Some(Trigger::of_bits(fcr / 64))
    }
}

// Returns the moment of a timer, if it is pending.
fn moment_of(number: u64) -> Option<u64>
    ensures { result ≡ moment_of_number number }
{
    if number == NEVER { None } else { Some(number) }
}

// Returns the shift register's contents, if it isn't idle.
fn shift_of(byte: u8, due: u64) -> Option<Shift>
    ensures { result ≡ shift_of_numbers byte due }
{
    if due == NEVER {
        None
    } else {
        Some(Shift { byte, due })
    }
}
