// The results of calls, as C structures.
ghost use Rattle.std.specs.Prelude.{◌≡◌, ◌≤◌, length, []};
ghost use Rattle.vmstate_board_c.specs.Answers.{flag as flag_of, no_number as no_number_of, nothing_said, number as number_of, said, wait_number as wait_number_of};

/// The most bytes that a board sends at once.
const MOST_SENT: usize = 17;

/// The result of an event.
///
/// A call whose status isn't 0 did nothing, and its other fields are 0.
#[repr(C)]
#[derive(Clone, Copy)]
pub struct CAnswer {
    /// The status: 0 on success.
    pub status: u32,
    /// The byte that was read or the vector of the interrupt, else 0.
    pub value: u8,
    /// 1 if the interrupt output is high, else 0.
    pub output: u8,
    /// The number of bytes that left on the serial line, 0 to 17.
    pub count: u8,
    /// The bytes that left on the serial line, the oldest first, followed by zeros.
    pub sent: [u8; 17],
}

/// The result of a question or of a save.
#[repr(C)]
#[derive(Clone, Copy)]
pub struct CNumber {
    /// The status: 0 on success.
    pub status: u32,
    /// The number, 0 unless the function says otherwise for its status.
    pub number: u64,
}

/// Returns the result of a call that does nothing, with the status `status`.
pub(crate) fn nothing(status: u32) -> CAnswer
    ensures { result ≡ nothing_said status }
{
    CAnswer {
        status,
        value: 0,
        output: 0,
        count: 0,
        sent: [0; MOST_SENT],
    }
}

/// Returns the result of an event that sent no byte.
#[inline(always)]
pub(crate) fn brief(value: Option<u8>, int: bool) -> CAnswer
    ensures { result ≡ said value int [] }
{
    CAnswer {
        status: 0,
        value: match value {
            Some(value) => value,
            None => 0,
        },
        output: u8::from(int),
        count: 0,
        sent: [0; MOST_SENT],
    }
}

/// Returns the result of an event.
pub(crate) fn answered(value: Option<u8>, int: bool, sent: &[u8]) -> CAnswer
    requires { length sent.now ≤ 17 }
    ensures { result ≡ said value int sent.now }
{
    if sent.is_empty() {
        return brief(value, int);
    }
    let mut bytes = [0; MOST_SENT];
    bytes[..sent.len()].copy_from_slice(sent);
    CAnswer {
        count: sent.len() as u8,
        sent: bytes,
        ..brief(value, int)
    }
}

/// Returns a result with the number `number` and the status 0.
pub(crate) fn number(number: u64) -> CNumber
    ensures { result ≡ number_of number }
{
    CNumber { status: 0, number }
}

/// Returns a result with the number 1 if `is` holds, else 0.
pub(crate) fn flag(is: bool) -> CNumber
    ensures { result ≡ flag_of is }
{
    number(u64::from(is))
}

/// Returns a result without a number, with the status `status`.
pub(crate) fn no_number(status: u32) -> CNumber
    ensures { result ≡ no_number_of status }
{
    CNumber { status, number: 0 }
}

/// Returns `wait` as a number, 2^64 - 1 if there is none.
pub(crate) fn wait_number(wait: Option<u64>) -> CNumber
    ensures { result ≡ wait_number_of wait }
{
    number(wait.unwrap_or(u64::MAX))
}
