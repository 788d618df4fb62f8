// The transfer of characters over the line, as the registers set it up.
ghost use Rattle.std.specs.Prelude.{◌≡◌, ◌≤◌};
ghost use Rattle.dev_serial.specs.Line.{character_time as character_time_of};

use crate::registers::{PEN, STB};
use dev_base::{NANOSECONDS, has};

/// How characters are sent and received, as the registers set it up.
#[derive(Clone, Copy)]
pub(crate) struct Mode {
    /// The time of one character, in nanoseconds.
    pub character: u64,
    /// Whether the FIFOs are on.
    pub has_fifos: bool,
    /// Whether the character timeout runs.
    pub times_out: bool,
    /// Whether bytes that are sent are received again ("Modem Control Register", bit 4).
    pub is_looped: bool,
}

/// The number of bits that the line transfers in a second at divisor 1.
pub(crate) const LINE_RATE: u64 = 115_200;

/// The longest time of a character, in nanoseconds: 12 bits at divisor 65,535.
pub(crate) const LONGEST_CHARACTER: u64 = 6_826_562_500;

/// Returns the time of one character, in nanoseconds ("Line Control Register").
///
/// A character has a start bit, 5 to 8 data bits, a parity bit if it is enabled, and 1 or 2 stop
/// bits. Their rate is the line's rate over `divisor`; a divisor of 0 counts as 1.
#[tactic(auto, unfolding(crate::specs::Line::character_time))]
pub(crate) fn character_time(divisor: u16, lcr: u8) -> u64
    ensures value { result ≡ character_time_of divisor lcr }
    ensures longest { result ≤ LONGEST_CHARACTER }
{
    let data_bits = 5 + u64::from(lcr % 4);
    let bits = 1 + data_bits + u64::from(has(lcr, PEN)) + 1 + u64::from(has(lcr, STB));
    bits * u64::from(divisor.max(1)) * NANOSECONDS / LINE_RATE
}
