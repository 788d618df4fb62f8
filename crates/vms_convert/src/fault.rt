// Why a stream isn't converted.
ghost use Rattle.std.specs.Prelude.{◌≡◌};
ghost use Rattle.vms_convert.specs.declared.fault.ConvertFault.TheVariants as faults;

use thiserror::Error;
use vms_check::Mismatch;
use vms_frames::Refusal;
use vms_io::{NoMemory, WriteFault};
use vms_load::LoadFault;

/// Why a stream wasn't converted. Only a write fault comes after a byte has been written.
#[derive(Debug, Drop, Error)]
pub enum ConvertFault {
    /// The newest set doesn't read what the target writes. Holds the first rule that fails. Nothing
    /// has been read.
    #[error("the sets are not compatible")]
    NotCompatible(Mismatch),
    /// The input isn't a stream of the newest set. Holds the place and the reason.
    #[error("the stream is refused")]
    Refused(Refusal),
    /// The target would lose something. Holds what is lost first:
    ///
    /// - a cell: the first cell of the newest set that the target doesn't carry;
    /// - else a device: the first one whose image isn't valid under the target, with its first cell
    ///   if it has one;
    /// - else the machine, with neither section nor cell.
    #[error("the conversion would lose something")]
    WouldLose {
        /// The device, by its number in the newest set, or none for the machine.
        section: Option<u32>,
        /// The cell of the device, if there is one.
        cell: Option<u32>,
    },
    /// The source failed and has counted a failure. Nothing has been written.
    #[error("a read has failed")]
    ReadFault,
    /// The sink failed and has counted a failure. A prefix of the stream has been written.
    #[error("a write has failed")]
    WriteFault,
    /// Out of memory. Nothing has been read or written.
    #[error("out of memory")]
    NoMemory,
}

impl From<NoMemory> for ConvertFault {
    ghost from_gives = { λ _ fault. fault ≡ faults.NoMemory };

    fn from(_: NoMemory) -> Self {
        ConvertFault::NoMemory
    }
}

impl From<WriteFault> for ConvertFault {
    ghost from_gives = { λ _ fault. fault ≡ faults.WriteFault };

    fn from(_: WriteFault) -> Self {
        ConvertFault::WriteFault
    }
}

impl From<LoadFault> for ConvertFault {
    ghost use Rattle.vms_convert.specs.Calls.{as_fault};

    ghost from_gives = { λ load fault. fault ≡ as_fault load };

    fn from(fault: LoadFault) -> Self {
        match fault {
            LoadFault::Refused(refusal) => ConvertFault::Refused(refusal),
            LoadFault::ReadFault => ConvertFault::ReadFault,
        }
    }
}

/// What would be lost: a cell of a device, a device, or the machine, which has neither.
#[derive(Clone, Copy)]
pub(crate) struct Loss {
    pub(crate) section: Option<u32>,
    pub(crate) cell: Option<u32>,
}

impl From<Loss> for ConvertFault {
    ghost from_gives = { λ loss fault. fault ≡ faults.WouldLose loss.section loss.cell };

    fn from(loss: Loss) -> Self {
        ConvertFault::WouldLose {
            section: loss.section,
            cell: loss.cell,
        }
    }
}
