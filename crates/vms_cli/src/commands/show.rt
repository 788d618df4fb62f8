// The command `show`: the values text of a stream.
ghost use Rattle.std.specs.Prelude.{◌≡◌, ◌<◌, length, IfSome, Some};
ghost use Rattle.std.specs.Option.{option_map};
ghost use Rattle.vms_io.specs.Told.{intake, outlet};
ghost use Rattle.vms_spec.specs.Values.{values_text};
ghost use Rattle.vms_load.specs.Lean.{has, loads};
ghost use Rattle.vms_values.specs.Printing.{machine_of};
ghost use Rattle.vms_commands.specs.Asks.{set_asked};
ghost use Rattle.vms_commands.specs.Endings.{WritesAs, ending_of};
ghost use Rattle.vms_commands.specs.SetWords.{set_word};
ghost use Rattle.vms_board_commands.specs.Runs.{Runs, frame};
ghost use Rattle.vms_cli.specs.Commands.{Show, asked, doing};
ghost use Rattle.vms_cli.specs.Commands.ShowCommand.{ShowsStream};

use super::Command;
use std::alloc::Global;
use vms_commands::{Ending, SetWord, loader_of, refused_line, set_word};
use vms_io::{Shelf, Sink, Source};
use vms_load::{LeanLoader, LoadFault};
use vms_values::print_values;

/// Returns the command `show` of the set that a word names.
pub(crate) fn show_of(set: &str) -> Option<Command<'_>>
    ensures { option_map asked result ≡ option_map Show (set_word set.now) }
{
    match set_word(set) {
        Some(set) => Some(Command::Show { set }),
        None => None,
    }
}

/// Writes the values text of the stream in `input` under the set `set` to `out`.
///
/// # Errors
///
/// An [`Ending`] if the set can't be obtained, the stream is refused, `input` or `out` fails, or
/// memory runs out.
pub(crate) fn show<I: Source, O: Sink, H: Shelf>(
    alloc: Global,
    set: SetWord,
    input: &mut I,
    out: &mut O,
    shelf: &mut H,
) -> Result<(), Ending>
    ensures { Runs (doing (Show (set_asked set.entry)))
        (frame I.Source O.Sink H.Shelf input.old out.old shelf.old)
        (frame I.Source O.Sink H.Shelf input.new out.new shelf.new) (ending_of result) }
{
    let mut loader = loader_of(alloc, set, shelf)?;
    show_stream(&mut loader, input, out)
}

// Shows once the set is known.
fn show_stream<I: Source, O: Sink>(
    loader: &mut LeanLoader,
    input: &mut I,
    out: &mut O,
) -> Result<(), Ending>
    ensures { ShowsStream (loads loader.old) (intake I.Source input.old) (intake I.Source input.new)
        (outlet O.Sink out.old) (outlet O.Sink out.new) (ending_of result) }
{
    match loader.load(input, None) {
        Ok(machine) => write_values(loader, machine, out),
        Err(LoadFault::Refused(refusal)) => {
            Err(Ending::Refused(refused_line(loader.set(), &refusal)))
        }
        Err(LoadFault::ReadFault) => Err(Ending::ReadFault),
    }
}

fn write_values<O: Sink>(
    loader: &LeanLoader,
    machine: Option<u32>,
    out: &mut O,
) -> Result<(), Ending>
    requires { IfSome machine (λ m. m < length (loads loader.now).machines) }
    ensures { let set = loads loader.now in
        WritesAs (values_text set (machine_of set machine) (has loader.now))
        (outlet O.Sink out.old) (outlet O.Sink out.new) (ending_of result) }
{
    Ok(print_values(loader.set(), machine, loader.images(), out)?)
}
