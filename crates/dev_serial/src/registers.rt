// The offsets of the registers, and their bits by number.
ghost use Rattle.std.specs.Prelude.{◌≡◌, ◌<◌, ◌^◌};
ghost use Rattle.dev_base.specs.Bits.{bits_where};

use dev_base::bits_where;

/// The offset of RBR and THR from the port's base.
///
/// While DLAB is set, offsets 0 and 1 are the two bytes of the divisor latch.
pub(crate) const RBR_THR: u8 = 0;

/// The offset of the Interrupt Enable Register.
pub(crate) const IER: u8 = 1;

/// The offset of the Interrupt Identification Register and the FIFO Control Register.
pub(crate) const IIR_FCR: u8 = 2;

/// The offset of the Line Control Register.
pub(crate) const LCR: u8 = 3;

/// The offset of the Modem Control Register.
pub(crate) const MCR: u8 = 4;

/// The offset of the Line Status Register.
pub(crate) const LSR: u8 = 5;

/// The offset of the Modem Status Register.
pub(crate) const MSR: u8 = 6;

/// Interrupt Enable Register: received data available.
pub(crate) const ERBFI: u8 = 0;

/// Interrupt Enable Register: transmitter holding register empty.
pub(crate) const ETBEI: u8 = 1;

/// Interrupt Enable Register: receiver line status.
pub(crate) const ELSI: u8 = 2;

/// FIFO Control Register: FIFO enable.
pub(crate) const FIFO_ENABLE: u8 = 0;

/// FIFO Control Register: receiver FIFO reset.
pub(crate) const RCVR_RESET: u8 = 1;

/// FIFO Control Register: transmitter FIFO reset.
pub(crate) const XMIT_RESET: u8 = 2;

/// Line Control Register: number of stop bits.
pub(crate) const STB: u8 = 2;

/// Line Control Register: parity enable.
pub(crate) const PEN: u8 = 3;

/// Line Control Register: divisor latch access.
pub(crate) const DLAB: u8 = 7;

/// Modem Control Register: data terminal ready.
pub(crate) const DTR: u8 = 0;

/// Modem Control Register: request to send.
pub(crate) const RTS: u8 = 1;

/// Modem Control Register: output 1.
pub(crate) const OUT1: u8 = 2;

/// Modem Control Register: output 2.
pub(crate) const OUT2: u8 = 3;

/// Modem Control Register: loop mode.
pub(crate) const LOOP: u8 = 4;

/// Line Status Register: data ready.
pub(crate) const DR: u8 = 0;

/// Line Status Register: overrun error.
pub(crate) const OE: u8 = 1;

/// Line Status Register: transmitter holding register empty.
pub(crate) const THRE: u8 = 5;

/// Line Status Register: transmitter empty.
pub(crate) const TEMT: u8 = 6;

/// Modem Status Register: clear to send.
pub(crate) const CTS: u8 = 4;

/// Modem Status Register: data set ready.
pub(crate) const DSR: u8 = 5;

/// Modem Status Register: ring indicator.
pub(crate) const RI: u8 = 6;

/// Modem Status Register: data carrier detect.
pub(crate) const DCD: u8 = 7;

/// The bits of the Interrupt Enable Register that exist here.
pub(crate) const IER_BITS: u8 = 0x0f;

/// The bits of the Modem Control Register that exist here.
pub(crate) const MCR_BITS: u8 = 0x1f;

/// The bits of the Line Status Register that exist here.
pub(crate) const LSR_BITS: u8 = 0x63;

/// What the Modem Status Register reads outside of loop mode: CTS, DSR and DCD.
pub(crate) const MODEM_READY: u8 = 0xb0;

/// Interrupt Identification Register: the two bits that are set while FIFOs are on.
pub(crate) const FIFOS_ENABLED: u8 = 0xc0;

/// Returns the bit with the number `bit` if `condition` holds, else 0.
pub(crate) fn bit_where(condition: bool, bit: u8) -> u8
    requires { bit < 8 }
    ensures { result ≡ bits_where condition (2 ^ bit) }
{
    bits_where(condition, 1 << bit)
}
