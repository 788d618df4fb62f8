//! The size of the FIFOs, and copies of their bytes.
ghost use Rattle.std.specs.Prelude.{◌≡◌};

use arrayvec::ArrayVec;

/// The number of bytes that a FIFO of the 16550A can hold.
pub(crate) const FIFO_BYTES: usize = vms_fields::serial::FIFO_BYTES;

/// Returns a copy of the bytes of a FIFO.
pub(crate) fn copied(bytes: &ArrayVec<u8, FIFO_BYTES>) -> ArrayVec<u8, FIFO_BYTES>
    ensures { result.items ≡ bytes.now.items }
{
    let mut copy = ArrayVec::new();
    let _fits = copy.try_extend_from_slice(bytes);
    copy
}
