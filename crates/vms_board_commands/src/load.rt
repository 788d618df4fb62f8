// The command `load`: a script's events on the board that a stream restores.
ghost use Rattle.dev_board.specs.Laws.{AreEvents};
ghost use Rattle.vms_board.specs.Family.{IsNumber};
ghost use Rattle.vms_io.specs.Told.{intake, outlet};
ghost use Rattle.vms_commands.specs.Endings.{WritesAs, ending_of};
ghost use Rattle.vms_session.specs.Events.{trace_from};
ghost use Rattle.vms_script.specs.Views.{event_lines};
ghost use Rattle.vms_board_commands.specs.Load.{LoadsStream, load_task};
ghost use Rattle.vms_board_commands.specs.Runs.{Runs, frame};

use crate::asked::OnBoard;
use crate::scripts::events_of;
use dev_board::Event;
use std::alloc::Global;
use vms_board::{Machine, MachineBoard, RestoreFault};
use vms_commands::{Ending, refused_line};
use vms_io::{Shelf, Sink, Source};
use vms_session::trace;

/// Restores a board from the stream in `input`, and writes the trace of a script's events on it to
/// `out`.
///
/// The script is fetched and all memory is allocated before the first read of the input.
///
/// # Errors
///
/// - [`Ending::Refused`]: the input is refused. Nothing has been written.
/// - [`Ending::ReadFault`]: `input` failed. Nothing has been written.
/// - [`Ending::WriteFault`]: `out` failed. A prefix of the trace has been written.
/// - [`Ending::BadText`]: the script is refused. The input hasn't been read.
/// - [`Ending::ShelfFault`], [`Ending::NotThere`] or [`Ending::TooLarge`]: the script can't be
///   fetched. The input hasn't been read.
/// - [`Ending::NoMemory`]: out of memory. The input hasn't been read.
///
/// # Requires
///
/// `asked.number` is the number of a board of this kind.
pub fn load_board<M: Machine, I: Source, O: Sink, H: Shelf>(
    alloc: Global,
    asked: OnBoard,
    input: &mut I,
    out: &mut O,
    shelf: &mut H,
) -> Result<(), Ending>
    requires { IsNumber M.family asked.number }
    ensures { Runs (load_task M.family asked.entry.number asked.entry.script.now)
        (frame I.Source O.Sink H.Shelf input.old out.old shelf.old)
        (frame I.Source O.Sink H.Shelf input.new out.new shelf.new) (ending_of result) }
{
    let events = events_of(alloc, asked.script, shelf)?;
    load_events::<M, I, O>(alloc, asked.number, &events, input, out)
}

// Continues once the script has been read.
fn load_events<M: Machine, I: Source, O: Sink>(
    alloc: Global,
    number: u8,
    events: &[Event],
    input: &mut I,
    out: &mut O,
) -> Result<(), Ending>
    requires board { IsNumber M.family number }
    requires events { AreEvents events.now }
    ensures { LoadsStream M.family number
        (event_lines events.now) (intake I.Source input.old) (intake I.Source input.new)
        (outlet O.Sink out.old) (outlet O.Sink out.new) (ending_of result) }
{
    let mut board = MachineBoard::<M>::new(alloc, number)?;
    load_on(&mut board, events, input, out)
}

// Continues once a board has been made.
fn load_on<M: Machine, I: Source, O: Sink>(
    board: &mut MachineBoard<M>,
    events: &[Event],
    input: &mut I,
    out: &mut O,
) -> Result<(), Ending>
    requires { AreEvents events.now }
    ensures { LoadsStream M.family (M.family.number board.old.state)
        (event_lines events.now) (intake I.Source input.old) (intake I.Source input.new)
        (outlet O.Sink out.old) (outlet O.Sink out.new) (ending_of result) }
{
    match board.restore(input) {
        Ok(()) => go_on(board, events, out),
        Err(RestoreFault::Refused(refusal)) => {
            Err(Ending::Refused(refused_line(board.set(), &refusal)))
        }
        Err(RestoreFault::ReadFault) => Err(Ending::ReadFault),
    }
}

// Continues once the board has been restored.
fn go_on<M: Machine, O: Sink>(
    board: &mut MachineBoard<M>,
    events: &[Event],
    out: &mut O,
) -> Result<(), Ending>
    requires { AreEvents events.now }
    ensures { let text = trace_from M.family events.now board.old.state in
        WritesAs text (outlet O.Sink out.old) (outlet O.Sink out.new) (ending_of result) }
{
    Ok(trace(board, events, out)?)
}
