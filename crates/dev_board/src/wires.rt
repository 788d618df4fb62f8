// The inputs of the pair that no device of the board drives.
ghost use Rattle.std.specs.Prelude.{◌≡◌, ◌<◌};
ghost use Rattle.dev_base.specs.Bits.{has, bits_where as bits_where_of};
ghost use Rattle.dev_board.specs.Wires.{is_wire as is_wire_of, with_wire as with_wire_of};

/// A bit for each wire: inputs 1, 3, 5, 6 and 7 of the master, and the slave's in bits 8 to 15.
pub(crate) const WIRES: u16 = 0xffea;

/// The master's input 0, which OUT of counter 0 drives.
pub(crate) const TIMER: u16 = 0x01;

/// The master's input 4, which the serial port's line drives.
pub(crate) const SERIAL: u16 = 0x10;

/// A bit for each input that the pair doesn't drive itself: all but the master's input 2.
pub(crate) const DRIVEN: u16 = 0xfffb;

/// Tells whether the input `input` of the pair is a wire: one of 1, 3, 5, 6, 7 and 8 to 15.
pub fn is_wire(input: u8) -> bool
    ensures { result ≡ is_wire_of input }
{
    input < 16 && is_high(WIRES, input)
}

/// Tells whether `input`, 0 to 15, is high in `lines`.
pub(crate) fn is_high(lines: u16, input: u8) -> bool
    requires { input < 16 }
    ensures { result ≡ has lines input }
{
    (lines >> input) & 1 == 1
}

/// Returns `wires` after `input`, 0 to 15, has risen (`up`) or fallen.
#[tactic(auto, unfolding(crate::specs::Wires::with_wire))]
pub(crate) fn with_wire(wires: u16, input: u8, up: bool) -> u16
    requires { input < 16 }
    ensures { result ≡ with_wire_of input up wires }
{
    if up {
        wires | (1 << input)
    } else {
        wires & !(1 << input)
    }
}

/// Returns `bits` if `condition` is true, else 0.
pub(crate) fn bits_where(condition: bool, bits: u16) -> u16
    ensures { result ≡ bits_where_of condition bits }
{
    if condition { bits } else { 0 }
}
