// Why a unit isn't read.
ghost use Rattle.std.specs.Prelude.{◌≡◌};

use vms_spec::Reason;

/// Where and why a stream is refused.
#[derive(Clone, Copy, Debug, PartialEq, Eq)]
pub struct Refusal {
    /// The number of the device concerned in its set, if any.
    pub section: Option<u32>,
    /// The offset of the first byte of the offending unit, counted from 0.
    pub at: u64,
    /// What is wrong with it.
    pub reason: Reason,
}

/// Why a call of a cursor returns no unit.
#[derive(Clone, Copy, Debug, PartialEq, Eq)]
pub enum FrameFault {
    /// The unit whose first byte is at offset `at` is invalid, or the input ends inside it.
    Refused { at: u64, reason: Reason },
    /// The source failed.
    ReadFault,
}

// Returns the refusal of the unit at offset `at`.
pub(crate) fn refused(at: u64, reason: Reason) -> FrameFault
    ensures { result ≡ FrameFault.Refused at reason }
{
    FrameFault::Refused { at, reason }
}
