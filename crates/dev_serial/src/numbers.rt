// A port as the numbers in a stream.
ghost use Rattle.std.specs.Prelude.{◌≡◌, ◌≤◌, ◌+◌, ◌++◌, if◌then◌else◌, [], length};
ghost use Rattle.dev_base.specs.Tables.{since};
ghost use Rattle.dev_serial.specs.Port.{is_thr_empty};
ghost use Rattle.dev_serial.specs.PortNumbers.{single_byte as single_byte_of, fcr_number, ipending_of, fifo_bytes as fifo_bytes_of, due_number, shift_number};
ghost use Rattle.vms_kinds.specs.declared.TheConstants.{MOST_CELLS};
ghost use Rattle.dev_serial.specs.declared.stored.TheConstants.{PORT_CELLS};

use crate::interrupt::Interrupt;
use crate::levels::{FIFOS_SINCE, RINGS_SINCE, TIMEOUT_SINCE};
use crate::registers::ETBEI;
use crate::serial::Serial;
use crate::shift::Shift;
use crate::stored::{Counted, Ring};
use crate::trigger::Trigger;
use arrayvec::ArrayVec;
use dev_base::{append, byte_at, has, moment_at, signed_at, word_at};
use vms_fields::serial as place;
use vms_kinds::DevCells;

/// The number of a timer that isn't pending, 2^64 - 1.
pub(crate) const NEVER: u64 = vms_fields::serial::NEVER;

/// A port as the numbers of the newest set, by the names in its description.
///
/// Each direction's bytes are in its counted array or in its ring, or in neither.
#[derive(Clone, Copy)]
pub(crate) struct PortNumbers {
    /// The divisor latch.
    pub divisor: u16,
    /// The Interrupt Enable Register.
    pub ier: u8,
    /// The Interrupt Identification Register, without the two bits for FIFOs.
    pub iir: u8,
    /// The Line Control Register.
    pub lcr: u8,
    /// The Modem Control Register.
    pub mcr: u8,
    /// The Line Status Register.
    pub lsr: u8,
    /// The Scratch Register.
    pub scr: u8,
    /// The received byte while FIFOs are off, else 0.
    pub rbr: u8,
    /// The byte that waits to be sent while FIFOs are off, else 0.
    pub thr: u8,
    /// The byte in the shift register, 0 if it is idle.
    pub tsr: u8,
    /// The moment at which that byte is sent, or `NEVER`.
    pub tx_due: u64,
    /// The FIFO Control Register, 0 while FIFOs are off.
    pub fcr: u8,
    /// The latch: saved as 1 if it is set, enabled and hidden by another interrupt, else as -1.
    pub thr_ipending: i8,
    /// The received bytes as a counted array, which sets without rings use.
    pub rx: Counted,
    /// The bytes that wait to be sent as a counted array, which sets without rings use.
    pub tx: Counted,
    /// The moment of the character timeout, or `NEVER`.
    pub timeout_at: u64,
    /// The received bytes as a ring, which sets with rings use.
    pub rx_ring: Ring,
    /// The bytes that wait to be sent as a ring, which sets with rings use.
    pub tx_ring: Ring,
}

impl PortNumbers {
    ghost use Rattle.dev_serial.specs.PortNumbers.{saved};
    ghost use Rattle.dev_serial.specs.Cells.{IsPortCells, field_cells, cells_of, numbers_of};

    /// Returns the numbers that set `set` saves for `port` at the moment `now`.
    #[tactic(auto, unfolding(crate::specs::PortNumbers::saved))]
    pub fn of_port(port: &Serial, set: u8, now: u64) -> PortNumbers
        ensures { result ≡ saved set now port.now }
    {
        let interrupt = port.interrupt(now);
        let held = port.receiver.held().as_slice();
        let waiting = port.transmitter.waiting().as_slice();
        let has_rings = set >= RINGS_SINCE;
        let (tsr, tx_due) = shift_numbers(port.transmitter.shift());
        PortNumbers {
            divisor: port.divisor,
            ier: port.ier,
            iir: interrupt.number(),
            lcr: port.lcr,
            mcr: port.mcr,
            lsr: port.line_status(),
            scr: port.scr,
            rbr: single_byte(port.fifos, held),
            thr: single_byte(port.fifos, waiting),
            tsr,
            tx_due,
            fcr: fifo_control(port.fifos),
            thr_ipending: latch_number(has(port.ier, ETBEI), port.thr_empty, interrupt),
            rx: Counted::of(fifo_bytes(!has_rings, port.fifos, held)),
            tx: Counted::of(fifo_bytes(!has_rings, port.fifos, waiting)),
            timeout_at: port.receiver.timeout().unwrap_or(NEVER),
            rx_ring: Ring::of(fifo_bytes(has_rings, port.fifos, held)),
            tx_ring: Ring::of(fifo_bytes(has_rings, port.fifos, waiting)),
        }
    }

    /// Returns the cells of set `set`, in the order of its description.
    ///
    /// The fields come first, then the cells of each subsection that the set has.
    pub fn cells(&self, set: u8) -> DevCells
        ensures cells { result.items ≡ cells_of set self.now }
        ensures count { length result.items ≤ PORT_CELLS }
    {
        let mut cells = self.field_cells();
        append_since(&mut cells, FIFOS_SINCE, set, &[i128::from(self.fcr)]);
        append(&mut cells, &[i128::from(self.thr_ipending)]);
        append_since(&mut cells, FIFOS_SINCE, set, &self.rx.cells());
        append_since(&mut cells, FIFOS_SINCE, set, &self.tx.cells());
        append_since(
            &mut cells,
            TIMEOUT_SINCE,
            set,
            &[i128::from(self.timeout_at)],
        );
        append_since(&mut cells, RINGS_SINCE, set, &self.rx_ring.cells());
        append_since(&mut cells, RINGS_SINCE, set, &self.tx_ring.cells());
        cells
    }

    // Returns the cells of the fields that every set has.
    #[tactic(auto, unfolding(crate::specs::Cells::field_cells))]
    fn field_cells(&self) -> DevCells
        ensures items { result.items ≡ field_cells self.now }
        ensures count { length result.items ≡ 11 }
    {
        let mut cells = ArrayVec::new();
        cells.push(i128::from(self.divisor));
        cells.push(i128::from(self.ier));
        cells.push(i128::from(self.iir));
        cells.push(i128::from(self.lcr));
        cells.push(i128::from(self.mcr));
        cells.push(i128::from(self.lsr));
        cells.push(i128::from(self.scr));
        cells.push(i128::from(self.rbr));
        cells.push(i128::from(self.thr));
        cells.push(i128::from(self.tsr));
        cells.push(i128::from(self.tx_due));
        cells
    }

    /// Returns the numbers in `cells`, which are cells of the newest set.
    #[tactic(auto, unfolding(crate::specs::Cells::numbers_of))]
    pub fn of_cells(cells: &DevCells) -> PortNumbers
        requires { IsPortCells cells.now.items }
        ensures { result ≡ numbers_of cells.now.items }
    {
        PortNumbers {
            divisor: word_at(cells, place::DIVISOR),
            ier: byte_at(cells, place::IER),
            iir: byte_at(cells, place::IIR),
            lcr: byte_at(cells, place::LCR),
            mcr: byte_at(cells, place::MCR),
            lsr: byte_at(cells, place::LSR),
            scr: byte_at(cells, place::SCR),
            rbr: byte_at(cells, place::RBR),
            thr: byte_at(cells, place::THR),
            tsr: byte_at(cells, place::TSR),
            tx_due: moment_at(cells, place::TX_DUE),
            fcr: byte_at(cells, place::FCR),
            thr_ipending: signed_at(cells, place::THR_IPENDING),
            rx: Counted::at(cells, place::RX_COUNT),
            tx: Counted::at(cells, place::TX_COUNT),
            timeout_at: moment_at(cells, place::TIMEOUT_AT),
            rx_ring: Ring::at(cells, place::RX_DATA),
            tx_ring: Ring::at(cells, place::TX_DATA),
        }
    }
}

// Appends `more` to `cells` if the set `set` is `first` or newer.
fn append_since(cells: &mut DevCells, first: u8, set: u8, more: &[i128])
    requires room { length cells.old.items + length more.now ≤ MOST_CELLS }
    ensures items { cells.new.items ≡ cells.old.items ++ since first set more.now }
    ensures most { length cells.new.items ≤ length cells.old.items + length more.now }
{
    if set >= first {
        append(cells, more);
    }
}

// Returns the byte that is held while FIFOs are off, 0 if there is none.
fn single_byte(fifos: Option<Trigger>, bytes: &[u8]) -> u8
    ensures { result ≡ single_byte_of fifos bytes.now }
{
    if fifos.is_none() && !bytes.is_empty() {
        bytes[0]
    } else {
        0
    }
}

// Returns the bytes of a FIFO that is on if `wanted` is set, else none.
fn fifo_bytes(wanted: bool, fifos: Option<Trigger>, bytes: &[u8]) -> &[u8]
    ensures { result.now ≡ (if wanted then fifo_bytes_of fifos bytes.now else []) }
{
    if wanted && fifos.is_some() {
        bytes
    } else {
        &[]
    }
}

// Returns the byte of the shift register and its moment; 0 and `NEVER` if it is idle.
fn shift_numbers(shift: Option<Shift>) -> (u8, u64)
    ensures { result ≡ (shift_number shift, due_number shift) }
{
    match shift {
        Some(shift) => (shift.byte, shift.due),
        None => (0, NEVER),
    }
}

// Returns the FIFO Control Register: 0 while FIFOs are off, else bit 0 and the trigger in bits 7
// and 6.
fn fifo_control(fifos: Option<Trigger>) -> u8
    ensures { result ≡ fcr_number fifos }
{
    match fifos {
        None => 0,
        Some(trigger) => 1 + 64 * trigger.bits(),
    }
}

// Returns the latch: 1 if it is set, enabled and hidden by another interrupt, else -1.
fn latch_number(is_enabled: bool, is_set: bool, interrupt: Interrupt) -> i8
    ensures { result ≡ ipending_of is_enabled is_set (is_thr_empty interrupt) }
{
    if is_enabled && is_set && !interrupt.is_thr_empty() {
        1
    } else {
        -1
    }
}
