// The command `check`: whether a newer set reads what an older one writes.
ghost use Rattle.std.specs.Prelude.{◌≡◌, true, false, Some};
ghost use Rattle.std.specs.Option.{option_map};
ghost use Rattle.vms_io.specs.Told.{outlet, stock};
ghost use Rattle.vms_desc.specs.Described.{described};
ghost use Rattle.vms_check.specs.Comparing.{first_mismatch};
ghost use Rattle.vms_commands.specs.Asks.{set_asked};
ghost use Rattle.vms_commands.specs.Endings.{ending_of};
ghost use Rattle.vms_commands.specs.SetWords.{set_word};
ghost use Rattle.vms_board_commands.specs.Runs.{RunsAside};
ghost use Rattle.vms_cli.specs.Commands.CheckCommand.{verdict};
ghost use Rattle.vms_cli.specs.Commands.{Check, asked, doing, of_both};
ghost use Rattle.vms_cli.specs.Causes.{WritesBy};
ghost use Rattle.vms_commands.specs.StepEndings.{TextEnds};

use super::Command;
use crate::two_sets::two_sets;
use std::alloc::Global;
use vms_check::Verdict;
use vms_commands::{Ending, SetWord, mismatch_line, set_word, write_text};
use vms_desc::DescSet;
use vms_io::{Shelf, Sink};

/// Returns the command `check` of the sets that two words name.
pub(crate) fn check_of<'a>(old: &'a str, new: &'a str) -> Option<Command<'a>>
    ensures { option_map asked result ≡ of_both Check (set_word old.now) (set_word new.now) }
{
    match (set_word(old), set_word(new)) {
        (Some(old), Some(new)) => Some(Command::Check { old, new }),
        _ => None,
    }
}

/// Checks whether the set `new` reads what the set `old` writes, and writes so to `out`.
///
/// # Errors
///
/// An [`Ending`] if the sets aren't compatible, a set can't be obtained, `out` fails, or memory
/// runs out.
pub(crate) fn check<O: Sink, H: Shelf>(
    alloc: Global,
    old: SetWord,
    new: SetWord,
    out: &mut O,
    shelf: &mut H,
) -> Result<(), Ending>
    ensures { RunsAside (doing (Check (set_asked old.entry) (set_asked new.entry)))
        (outlet O.Sink out.old) (outlet O.Sink out.new)
        (stock H.Shelf shelf.old) (stock H.Shelf shelf.new) (ending_of result) }
{
    let sets = two_sets(alloc, old, new, shelf)?;
    compare(alloc, &sets.old, &sets.new, out)
}

fn compare<O: Sink>(alloc: Global, old: &DescSet, new: &DescSet, out: &mut O) -> Result<(), Ending>
    ensures ends { TextEnds (verdict (first_mismatch (described old.now) (described new.now)))
        (outlet O.Sink out.old) (outlet O.Sink out.new) (ending_of result) }
    ensures so { WritesBy false true (outlet O.Sink out.old) (outlet O.Sink out.new)
        (ending_of result) }
{
    match vms_check::check(old, new) {
        Verdict::Accepted => write_text(b"compatible\n", out),
        Verdict::Refused(mismatch) => Err(Ending::NotCompatible(mismatch_line(alloc, mismatch)?)),
    }
}
