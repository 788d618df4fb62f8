// Two sets that arguments name: both are fetched, then both are parsed.
ghost use Rattle.vms_io.specs.Told.{stock};
ghost use Rattle.vms_commands.specs.Asks.{set_asked};
ghost use Rattle.vms_commands.specs.Fetching.{named_sets};
ghost use Rattle.vms_commands.specs.StepEndings.{AsksIf, HadCause, StepAs};
ghost use Rattle.vms_cli.specs.Commands.CheckCommand.{asks_shelf};
ghost use Rattle.vms_cli.specs.TwoSets.{sets_of};

use std::alloc::Global;
use vms_commands::{Ending, SetWord, fetch_set, read_fetched};
use vms_desc::DescSet;
use vms_io::Shelf;

/// An older and a newer set.
#[derive(Drop)]
pub(crate) struct TwoSets {
    pub(crate) old: DescSet,
    pub(crate) new: DescSet,
}

/// Returns the sets that two words name. The older one is fetched and parsed first.
///
/// # Errors
///
/// Those of [`fetch_set`] and of [`read_fetched`].
pub(crate) fn two_sets<H: Shelf>(
    alloc: Global,
    old: SetWord,
    new: SetWord,
    shelf: &mut H,
) -> Result<TwoSets, Ending>
    ensures had { StepAs sets_of
        (named_sets (H.held shelf.old) (set_asked old.entry) (set_asked new.entry)) result }
    ensures asks { AsksIf HadCause (asks_shelf (set_asked old.entry) (set_asked new.entry))
        (stock H.Shelf shelf.old) (stock H.Shelf shelf.new) result }
{
    let old_text = fetch_set(alloc, old, shelf)?;
    let new_text = fetch_set(alloc, new, shelf)?;
    let old = read_fetched(alloc, &old_text)?;
    drop(old_text);
    let new = read_fetched(alloc, &new_text)?;
    Ok(TwoSets { old, new })
}
