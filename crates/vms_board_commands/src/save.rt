// The command `save`: the stream of a board after a script.
ghost use Rattle.std.specs.Prelude.{◌≡◌};
ghost use Rattle.dev_base.specs.Levels.{ReachesSet};
ghost use Rattle.dev_board.specs.Laws.{AreEvents};
ghost use Rattle.vms_board.specs.Family.{IsNumber};
ghost use Rattle.vms_board.specs.Saving.{saved_stream};
ghost use Rattle.vms_board_streams.specs.Streams.{after_events};
ghost use Rattle.vms_io.specs.Told.{Intake, Stock, outlet, stock};
ghost use Rattle.vms_commands.specs.Endings.{ending_of};
ghost use Rattle.vms_commands.specs.StepEndings.{TextEnds};
ghost use Rattle.vms_commands.specs.Steps.{Gives};
ghost use Rattle.vms_commands.specs.Courses.{EndsSo};
ghost use Rattle.vms_board_commands.specs.Causes.{save_course};
ghost use Rattle.vms_board_commands.specs.Save.{ending_by, save_task};
ghost use Rattle.vms_board_commands.specs.Runs.{RunsAside};

use crate::asked::Saving;
use crate::scripts::events_of;
use dev_board::Event;
use std::alloc::Global;
use vms_board::{Machine, SaveFault, save_devices};
use vms_commands::Ending;
use vms_io::{Shelf, Sink};
use vms_session::run_events;

/// Writes the stream of a board to `out`, after the events of a script from power on.
///
/// # Errors
///
/// - [`Ending::BadText`]: the script is refused. Nothing has been written.
/// - [`Ending::ShelfFault`], [`Ending::NotThere`] or [`Ending::TooLarge`]: the script can't be
///   fetched. Nothing has been written.
/// - [`Ending::WriteFault`]: `out` failed. A prefix of the stream has been written.
/// - [`Ending::NoMemory`]: out of memory. Nothing has been written.
///
/// # Requires
///
/// `asked.number` is the number of a board of this kind, and `asked.set` is a number from it to the
/// newest.
pub fn save_board<M: Machine, O: Sink, H: Shelf>(
    alloc: Global,
    asked: Saving,
    out: &mut O,
    shelf: &mut H,
) -> Result<(), Ending>
    requires board { IsNumber M.family asked.number }
    requires may { ReachesSet M.family.newest asked.number asked.set }
    ensures { let said = asked.entry in
        RunsAside (save_task M.family said.number said.set said.script.now)
        (outlet O.Sink out.old) (outlet O.Sink out.new)
        (stock H.Shelf shelf.old) (stock H.Shelf shelf.new) (ending_of result) }
{
    let events = events_of(alloc, asked.script, shelf)?;
    save_after::<M, O>(alloc, asked.number, asked.set, &events, out)
}

// Continues once the script has been read.
fn save_after<M: Machine, O: Sink>(
    alloc: Global,
    number: u8,
    set: u8,
    events: &[Event],
    out: &mut O,
) -> Result<(), Ending>
    requires board { IsNumber M.family number }
    requires may { ReachesSet M.family.newest number set }
    requires events { AreEvents events.now }
    ensures ends { let board = after_events M.family events.now (M.family.power_on number) in
        TextEnds (Gives (saved_stream M.family set board)) (outlet O.Sink out.old)
        (outlet O.Sink out.new) (ending_of result) }
    ensures so { (input : Intake) (shelf : Stock) → EndsSo input input (outlet O.Sink out.old)
        (outlet O.Sink out.new) shelf shelf save_course (ending_of result) }
{
    let mut devices = M::at_power_on(number);
    run_events(&mut devices, events);
    save_devices(alloc, &devices, set, out).map_err(fault_ending)
}

// Returns how the command ends if a save failed with `fault`.
fn fault_ending(fault: SaveFault) -> Ending
    ensures { result ≡ ending_by fault }
{
    match fault {
        SaveFault::WriteFault => Ending::WriteFault,
        SaveFault::NoMemory => Ending::NoMemory,
    }
}
