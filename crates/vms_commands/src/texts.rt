// Texts that are written to standard output.
ghost use Rattle.vms_io.specs.Told.{outlet};
ghost use Rattle.vms_commands.specs.Endings.{WritesAs, ending_of};

use crate::ending::Ending;
use vms_io::{Sink, write_all_of};

/// Writes `text` to `out`.
///
/// # Errors
///
/// [`Ending::WriteFault`] if `out` fails. A prefix of `text` has been written then.
pub fn write_text<O: Sink>(text: &[u8], out: &mut O) -> Result<(), Ending>
    ensures { WritesAs text.now (outlet O.Sink out.old) (outlet O.Sink out.new)
        (ending_of result) }
{
    match write_all_of(out, text) {
        Ok(()) => Ok(()),
        Err(_) => Err(Ending::WriteFault),
    }
}
