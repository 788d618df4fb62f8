// The command `counter`: a state that shows why a newer set refuses what an older one writes.
ghost use Rattle.std.specs.Prelude.{◌≡◌, ◌++◌, false, map, Some, IfOk, string_bytes};
ghost use Rattle.std.specs.Option.{option_map};
ghost use Rattle.vms_io.specs.Told.{outlet, stock};
ghost use Rattle.vms_io.specs.Writing.{Wrote};
ghost use Rattle.vms_spec.specs.Lists.{at_option};
ghost use Rattle.vms_spec.specs.Values.{values_text};
ghost use Rattle.vms_desc.specs.Described.{described};
ghost use Rattle.vms_image.specs.Typed.{state_of};
ghost use Rattle.vms_load.specs.Kept.{loads};
ghost use Rattle.vms_counter_laws.specs.Computed.{computed};
ghost use Rattle.vms_counter.specs.Found.{answer_of, IsFindingOf};
ghost use Rattle.vms_commands.specs.Asks.{set_asked};
ghost use Rattle.vms_commands.specs.Endings.{ending_of};
ghost use Rattle.vms_commands.specs.SetWords.{set_word};
ghost use Rattle.vms_board_commands.specs.Runs.{RunsAside};
ghost use Rattle.vms_commands.specs.Lines.{refused_line};
ghost use Rattle.vms_commands.specs.SetLines.{mismatch_line};
ghost use Rattle.vms_commands.specs.StepEndings.{WrittenAs};
ghost use Rattle.vms_cli.specs.Causes.{WritesBy};
ghost use Rattle.vms_cli.specs.TwoSets.{sets_of};
ghost use Rattle.vms_cli.specs.Commands.CounterCommand.{counter_text, no_state};
ghost use Rattle.vms_cli.specs.Commands.{Counter, asked, doing, of_both};
ghost use Rattle.vms_cli.specs.Needs.{CanPrint};

use super::Command;
use crate::two_sets::{TwoSets, two_sets};
use std::alloc::Global;
use vms_check::Mismatch;
use vms_commands::{Ending, SetWord, mismatch_line, refused_line, set_word, write_text};
use vms_counter::Finding;
use vms_desc::DescSet;
use vms_image::Image;
use vms_io::{NoMemory, Shelf, Sink, WriteFault, write_all_of};
use vms_load::{Loader, Refusal};
use vms_values::print_values;

/// Returns the command `counter` of the sets that two words name.
pub(crate) fn counter_of<'a>(old: &'a str, new: &'a str) -> Option<Command<'a>>
    ensures { option_map asked result ≡ of_both Counter (set_word old.now) (set_word new.now) }
{
    match (set_word(old), set_word(new)) {
        (Some(old), Some(new)) => Some(Command::Counter { old, new }),
        _ => None,
    }
}

/// Writes a state to `out` that shows why the set `new` doesn't read what the set `old` writes.
///
/// # Errors
///
/// An [`Ending`] if a set can't be obtained, `out` fails, or memory runs out.
pub(crate) fn counter<O: Sink, H: Shelf>(
    alloc: Global,
    old: SetWord,
    new: SetWord,
    out: &mut O,
    shelf: &mut H,
) -> Result<(), Ending>
    ensures { RunsAside (doing (Counter (set_asked old.entry) (set_asked new.entry)))
        (outlet O.Sink out.old) (outlet O.Sink out.new)
        (stock H.Shelf shelf.old) (stock H.Shelf shelf.new) (ending_of result) }
{
    let sets = two_sets(alloc, old, new, shelf)?;
    find(alloc, sets, out)
}

fn find<O: Sink>(alloc: Global, sets: TwoSets, out: &mut O) -> Result<(), Ending>
    ensures ends { let two = sets_of sets in WrittenAs
        (counter_text two.old two.new (computed two.old two.new))
        (outlet O.Sink out.old) (outlet O.Sink out.new) (ending_of result) }
    ensures so { WritesBy false false (outlet O.Sink out.old) (outlet O.Sink out.new)
        (ending_of result) }
{
    let mut loader = Loader::new(alloc, sets.new)?;
    find_by(alloc, &sets.old, &mut loader, out)
}

// Does the same. The newer set is in a loader.
fn find_by<O: Sink>(
    alloc: Global,
    old: &DescSet,
    new: &mut Loader,
    out: &mut O,
) -> Result<(), Ending>
    ensures ends { let old = described old.now in WrittenAs
        (counter_text old (loads new.old) (computed old (loads new.old)))
        (outlet O.Sink out.old) (outlet O.Sink out.new) (ending_of result) }
    ensures so { WritesBy false false (outlet O.Sink out.old) (outlet O.Sink out.new)
        (ending_of result) }
{
    let finding = vms_counter::counter(alloc, old, new)?;
    write_finding(alloc, old, new.set(), &finding, out)
}

fn write_finding<O: Sink>(
    alloc: Global,
    old: &DescSet,
    new: &DescSet,
    finding: &Finding,
    out: &mut O,
) -> Result<(), Ending>
    requires { IsFindingOf (described old.now) finding.now }
    ensures ends { WrittenAs (counter_text (described old.now) (described new.now)
        (answer_of (described old.now) finding.now))
        (outlet O.Sink out.old) (outlet O.Sink out.new) (ending_of result) }
    ensures so { WritesBy false false (outlet O.Sink out.old) (outlet O.Sink out.new)
        (ending_of result) }
{
    match finding {
        Finding::Compatible => write_text(b"compatible\n", out),
        Finding::NoState(mismatch) => {
            let text = no_state_text(alloc, *mismatch)?;
            write_text(text.as_bytes(), out)
        }
        Finding::State {
            mismatch,
            machine,
            images,
            refusal,
        } => {
            let head = head_of(alloc, new, *mismatch, refusal)?;
            Ok(write_state(&head, old, *machine, images, out)?)
        }
    }
}

fn no_state_text(alloc: Global, mismatch: Mismatch) -> Result<String, NoMemory>
    ensures { IfOk result (λ text. string_bytes text ≡ mismatch_line mismatch ++ no_state) }
{
    let line = mismatch_line(alloc, mismatch)?;
    Ok(format!(in alloc; "{line}no state\n")?)
}

// Returns the lines before a state's values: the rule that fails, and where the stream is refused.
fn head_of(
    alloc: Global,
    new: &DescSet,
    mismatch: Mismatch,
    refusal: &Refusal,
) -> Result<Vec<u8>, NoMemory>
    ensures { let r = refusal.now in IfOk result (λ head. head.items
        ≡ mismatch_line mismatch ++ refused_line (described new.now) r.at r.section r.reason) }
{
    let line = mismatch_line(alloc, mismatch)?;
    let mut head = Vec::from_slice(alloc, line.as_bytes())?;
    head.extend_from_slice(refused_line(new, refusal).as_slice())?;
    Ok(head)
}

// Writes the lines before a state's values, and the values.
fn write_state<O: Sink>(
    head: &[u8],
    set: &DescSet,
    machine: Option<u32>,
    images: &[Image],
    out: &mut O,
) -> Result<(), WriteFault>
    requires { CanPrint set.now machine images.now }
    ensures { let set = described set.now in let named = at_option set.machines machine in
        Wrote (outlet O.Sink out.old) (outlet O.Sink out.new)
        (head.now ++ values_text set named (map state_of images.now)) result }
{
    match write_all_of(out, head) {
        Ok(()) => print_values(set, machine, images, out),
        Err(_) => Err(WriteFault),
    }
}
