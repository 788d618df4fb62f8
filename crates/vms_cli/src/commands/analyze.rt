// The command `analyze`: the values text of a stream by the stream's own description.
ghost use Rattle.std.specs.Prelude.{◌≡◌, Err, Some};
ghost use Rattle.vms_io.specs.Told.{Stock, intake, outlet};
ghost use Rattle.vms_commands.specs.Endings.{ending_of};
ghost use Rattle.vms_board_commands.specs.Runs.{Runs, moment};
ghost use Rattle.vms_cli.specs.Commands.AnalyzeCommand.{EndsLike, unlisted_line};
ghost use Rattle.vms_cli.specs.Commands.{Analyze, doing};

use arrayvec::ArrayVec;
use std::alloc::Global;
use vms_analyze::{AnalyzeFault, AnalyzeReason, analyze};
use vms_commands::{Ending, NoteLine, append_number};
use vms_io::{Sink, Source};
use vms_words::append;

/// Writes the values text of the stream in `input` to `out`, by the stream's own description.
///
/// # Errors
///
/// An [`Ending`] if the stream can't be listed, `input` or `out` fails, or memory runs out.
pub(crate) fn analyze_input<I: Source, O: Sink>(
    alloc: Global,
    input: &mut I,
    out: &mut O,
) -> Result<(), Ending>
    ensures { (shelf : Stock) → Runs (doing Analyze)
        (moment (intake I.Source input.old) (outlet O.Sink out.old) shelf)
        (moment (intake I.Source input.new) (outlet O.Sink out.new) shelf) (ending_of result) }
{
    analyze(alloc, input, out).map_err(fault_ending)
}

// Returns the ending for a fault.
fn fault_ending(fault: AnalyzeFault) -> Ending
    ensures { EndsLike (Err fault) (Some result) }
{
    match fault {
        AnalyzeFault::Refused { at, reason } => Ending::Refused(unlisted_line(at, reason)),
        AnalyzeFault::ReadFault => Ending::ReadFault,
        AnalyzeFault::WriteFault => Ending::WriteFault,
        AnalyzeFault::NoMemory => Ending::NoMemory,
    }
}

// Returns the line of an input that can't be listed: the offset and the reason.
fn unlisted_line(at: u64, reason: AnalyzeReason) -> NoteLine
    ensures { result.items ≡ unlisted_line at reason }
{
    let word = match reason {
        AnalyzeReason::TooLong => "TooLong",
        AnalyzeReason::NoDescription => "NoDescription",
        AnalyzeReason::Shape => "Shape",
        AnalyzeReason::Mismatch => "Mismatch",
    };
    let mut line = ArrayVec::new();
    append(&mut line, b"refused at ");
    append_number(&mut line, at);
    append(&mut line, b" in -: ");
    append(&mut line, word.as_bytes());
    append(&mut line, b"\n");
    line
}
