// The scripts that arguments name: they are fetched from the shelf and read.
ghost use Rattle.std.specs.Prelude.{◌≡◌, true, List, None, Ok, Some, IfOk, string_bytes};
ghost use Rattle.dev_board.specs.Laws.{AreEvents};
ghost use Rattle.vms_io.specs.Told.{stock};
ghost use Rattle.vms_commands.specs.StepEndings.{Asks, HadCause, ReadCause, StepAs};
ghost use Rattle.vms_script.specs.Grammar.{AreLines};
ghost use Rattle.vms_script.specs.Lines.{ScriptLine};
ghost use Rattle.vms_script.specs.Script.{Reading};
ghost use Rattle.vms_script.specs.Views.{event_lines, lines_view, ReadsLines};
ghost use Rattle.vms_board_commands.specs.Scripts.{said_lines, script_line, scripted};

use dev_board::Event;
use std::alloc::Global;
use vms_commands::{Ending, fetch};
use vms_io::{NoMemory, Shelf};
use vms_script::{Line, ScriptFault, ScriptReason, read_events, read_script};

/// The length of the longest script, in bytes.
pub const LONGEST_SCRIPT: u32 = 4_194_304;

/// Returns the lines of the session's script `name`, for a board of the level `level`.
///
/// # Errors
///
/// - [`Ending::BadText`]: the script is refused.
/// - [`Ending::ShelfFault`], [`Ending::NotThere`] or [`Ending::TooLarge`]: it can't be fetched.
/// - [`Ending::NoMemory`]: out of memory.
pub(crate) fn session_of<H: Shelf>(
    alloc: Global,
    name: &str,
    level: u8,
    shelf: &mut H,
) -> Result<Vec<Line>, Ending>
    ensures read { StepAs (λ lines. lines_view lines.items)
        (scripted (Some level) (H.held shelf.old) name.now) result }
    ensures good { IfOk result (λ lines. AreLines (Some level) (lines_view lines.items)) }
    ensures asks { Asks (HadCause true) (stock H.Shelf shelf.old) (stock H.Shelf shelf.new) result }
{
    let text = fetch(alloc, name, LONGEST_SCRIPT, shelf)?;
    had(alloc, read_script(alloc, &text, Some(level)))
}

/// Returns the events of the script `name`.
///
/// # Errors
///
/// - [`Ending::BadText`]: the script is refused.
/// - [`Ending::ShelfFault`], [`Ending::NotThere`] or [`Ending::TooLarge`]: it can't be fetched.
/// - [`Ending::NoMemory`]: out of memory.
pub(crate) fn events_of<H: Shelf>(
    alloc: Global,
    name: &str,
    shelf: &mut H,
) -> Result<Vec<Event>, Ending>
    ensures read { StepAs (λ events. event_lines events.items)
        (scripted None (H.held shelf.old) name.now) result }
    ensures good { IfOk result (λ events. AreEvents events.items) }
    ensures asks { Asks (HadCause true) (stock H.Shelf shelf.old) (stock H.Shelf shelf.new) result }
{
    let text = fetch(alloc, name, LONGEST_SCRIPT, shelf)?;
    had(alloc, read_events(alloc, &text))
}

// Returns what was read from a script, or how the command ends.
fn had<T: Drop>(alloc: Global, read: Result<T, ScriptFault>) -> Result<T, Ending>
    ensures read { (lines : T → List ScriptLine) (reading : Reading) → ReadsLines lines reading read
        → StepAs lines (said_lines reading) result }
    ensures same { IfOk result (λ t. read ≡ Ok t) }
    ensures ends { ReadCause true result }
{
    match read {
        Ok(lines) => Ok(lines),
        Err(ScriptFault::Bad { line, reason }) => {
            Err(Ending::BadText(script_line(alloc, line, reason)?))
        }
        Err(ScriptFault::NoMemory) => Err(Ending::NoMemory),
    }
}

// Returns the line that reports a refused script. Fails only if memory runs out.
fn script_line(alloc: Global, line: u32, reason: ScriptReason) -> Result<String, NoMemory>
    ensures { IfOk result (λ text. string_bytes text ≡ script_line line reason) }
{
    let word = match reason {
        ScriptReason::Form => "Form",
        ScriptReason::Range => "Range",
        ScriptReason::NoEnd => "NoEnd",
    };
    Ok(format!(in alloc; "script line {line}: {word}\n")?)
}
