// The listing of what a source holds.
ghost use Rattle.vms_io.specs.Told.{intake, outlet};
ghost use Rattle.vms_analyze.specs.Calls.{Analyzes, ListsTaken};

use crate::fault::{AnalyzeFault, AnalyzeReason};
use crate::input::{LONGEST, NoInput, read_input};
use crate::list::list;
use std::alloc::Global;
use vms_io::{Sink, Source, write_all_of};

/// Reads a stream from `source` and writes its values text to `sink`, by the stream's own
/// description.
///
/// The source is read to its end, or 100,000,001 bytes of it if it has more than 100,000,000,
/// unless a read fails or memory runs out.
///
/// # Errors
///
/// - [`AnalyzeFault::Refused`]: the input has no listing. Nothing has been written.
/// - [`AnalyzeFault::ReadFault`]: the source failed. Nothing has been written.
/// - [`AnalyzeFault::WriteFault`]: the sink failed. A beginning of the text has been written.
/// - [`AnalyzeFault::NoMemory`]: out of memory. Nothing has been written.
pub fn analyze<S: Source, K: Sink>(
    alloc: Global,
    source: &mut S,
    sink: &mut K,
) -> Result<(), AnalyzeFault>
    ensures { Analyzes (intake S.Source source.old) (intake S.Source source.new)
        (outlet K.Sink sink.old) (outlet K.Sink sink.new) result }
{
    let text = list_source(alloc, source)?;
    match write_all_of(sink, &text) {
        Ok(()) => Ok(()),
        Err(_) => Err(AnalyzeFault::WriteFault),
    }
}

// Returns the text for the rest of `source`.
fn list_source<S: Source>(alloc: Global, source: &mut S) -> Result<Vec<u8>, AnalyzeFault>
    ensures { ListsTaken (intake S.Source source.old) (intake S.Source source.new) result }
{
    match read_input(alloc, source) {
        Ok(input) => list(alloc, &input),
        Err(NoInput::TooLong) => Err(AnalyzeFault::Refused {
            at: LONGEST as u64,
            reason: AnalyzeReason::TooLong,
        }),
        Err(NoInput::ReadFault) => Err(AnalyzeFault::ReadFault),
        Err(NoInput::NoMemory) => Err(AnalyzeFault::NoMemory),
    }
}
