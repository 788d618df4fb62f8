// Writes pieces of text one after the other.
ghost use Rattle.vms_io.specs.Told.{outlet};
ghost use Rattle.vms_io.specs.Writing.{Wrote};
ghost use Rattle.vms_values.specs.Written.{joined};

use vms_io::{Failed, Sink, write_all_of};

/// Writes `pieces` to `sink`.
///
/// # Errors
///
/// - [`Failed`]: the sink failed.
pub(crate) fn write_pieces<K: Sink>(sink: &mut K, pieces: &[&[u8]]) -> Result<(), Failed>
    ensures { Wrote (outlet K.Sink sink.old) (outlet K.Sink sink.new) (joined pieces.now) result }
{
    for piece in pieces {
        write_all_of(sink, piece)?;
    }
    Ok(())
}
