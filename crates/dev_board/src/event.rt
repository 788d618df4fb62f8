// What happens to a board, and what it answers.
ghost use Rattle.std.specs.Prelude.{◌≡◌};
ghost use Rattle.dev_board.specs.Touch.{saying as saying_of};

use arrayvec::ArrayVec;
use dev_serial::MOST_SENT;

/// What happens to a board: an access of the guest, a byte or a line from outside, or the passing
/// of time.
#[derive(Clone, Copy, Debug, PartialEq, Eq)]
pub enum Event {
    /// The guest reads the I/O port `port`.
    Read { port: u16 },
    /// The guest writes the byte `value` to the I/O port `port`.
    Write { port: u16, value: u8 },
    /// The byte `value` arrives on the serial line.
    Byte { value: u8 },
    /// `ns` nanoseconds pass.
    Wait { ns: u64 },
    /// The free interrupt input `input` rises (`up`) or falls, and stays so. It is one of 1, 3, 5, 6,
    /// 7 and 8 to 15.
    Wire { input: u8, up: bool },
    /// The processor acknowledges an interrupt.
    Ack,
}

/// What a board answers to an event.
#[derive(Drop)]
pub struct Answer {
    /// The value of a read, or the vector of an acknowledge; none for other events.
    pub value: Option<u8>,
    /// The interrupt output of the master 8259A after the event.
    pub int: bool,
    /// The bytes that left the serial port during the event, first out first.
    pub sent: ArrayVec<u8, MOST_SENT>,
}

/// Returns an answer without bytes.
pub(crate) fn saying(value: Option<u8>, int: bool) -> Answer
    ensures { result ≡ saying_of value int }
{
    Answer {
        value,
        int,
        sent: ArrayVec::new(),
    }
}
