// Why a load fails.
ghost use Rattle.std.specs.Prelude.{◌≡◌};

use thiserror::Error;
use vms_frames::{FrameFault, Refusal};
use vms_spec::Reason;

/// Why a load failed.
#[derive(Debug, Drop, Error)]
pub enum LoadFault {
    /// The input isn't a stream of the set. Holds the offset, the device and the reason.
    #[error("the stream is refused")]
    Refused(Refusal),
    /// The source failed; its count of faults has risen.
    #[error("a read has failed")]
    ReadFault,
}

impl LoadFault {
    ghost use Rattle.vms_load.specs.Reads.{concerning};

    /// Returns the fault of a unit that belongs to the device `section`, or to none.
    pub(crate) fn concerning(section: Option<u32>, fault: FrameFault) -> LoadFault
        ensures { result ≡ concerning section fault }
    {
        match fault {
            FrameFault::Refused { at, reason } => refused(section, at, reason),
            FrameFault::ReadFault => LoadFault::ReadFault,
        }
    }
}

/// Returns the refusal of the unit at offset `at`.
pub(crate) fn refused(section: Option<u32>, at: u64, reason: Reason) -> LoadFault
    ensures { result ≡ LoadFault.Refused (record { section = section; at = at; reason = reason }) }
{
    LoadFault::Refused(Refusal {
        section,
        at,
        reason,
    })
}
