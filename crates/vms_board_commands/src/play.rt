// The command `play`: a session.
ghost use Rattle.std.specs.Prelude.{◌≡◌, Some};
ghost use Rattle.dev_base.specs.Levels.{IsLevel};
ghost use Rattle.vms_io.specs.Told.{outlet, stock};
ghost use Rattle.vms_commands.specs.Endings.{ending_of};
ghost use Rattle.vms_script.specs.Grammar.{AreLines};
ghost use Rattle.vms_script.specs.Views.{lines_view};
ghost use Rattle.vms_board_commands.specs.Play.{ending_by, lines_task, play_task};
ghost use Rattle.vms_board_commands.specs.Runs.{RunsAside};

use crate::asked::OnBoard;
use crate::scripts::session_of;
use std::alloc::Global;
use vms_board::Board;
use vms_commands::Ending;
use vms_io::{Shelf, Sink};
use vms_script::Line;
use vms_session::{PlayFault, play};

/// Plays a session on a board at power on and the files in `shelf`, and writes its trace to `out`.
///
/// # Errors
///
/// - [`Ending::BadText`]: the script is refused. Nothing has been written.
/// - [`Ending::NotThere`] or [`Ending::TooLarge`]: the script can't be fetched. Nothing has been
///   written.
/// - [`Ending::WriteFault`]: `out` failed, possibly after some lines were played.
/// - [`Ending::ShelfFault`]: `shelf` failed, possibly after some lines were played.
/// - [`Ending::NoMemory`]: out of memory, possibly after some lines were played.
///
/// # Requires
///
/// `asked.number` is a level from 1 to 4.
#[inline(never)]
pub fn play_board<O: Sink, H: Shelf>(
    alloc: Global,
    asked: OnBoard,
    out: &mut O,
    shelf: &mut H,
) -> Result<(), Ending>
    requires { IsLevel asked.number }
    ensures { RunsAside (play_task asked.entry.number asked.entry.script.now)
        (outlet O.Sink out.old) (outlet O.Sink out.new)
        (stock H.Shelf shelf.old) (stock H.Shelf shelf.new) (ending_of result) }
{
    let lines = session_of(alloc, asked.script, asked.number, shelf)?;
    play_lines(alloc, asked.number, &lines, out, shelf)
}

// Continues once the script has been read.
fn play_lines<O: Sink, H: Shelf>(
    alloc: Global,
    level: u8,
    lines: &[Line],
    out: &mut O,
    shelf: &mut H,
) -> Result<(), Ending>
    requires level { IsLevel level }
    requires lines { AreLines (Some level) (lines_view lines.now) }
    ensures { RunsAside (lines_task level (lines_view lines.now))
        (outlet O.Sink out.old) (outlet O.Sink out.new)
        (stock H.Shelf shelf.old) (stock H.Shelf shelf.new) (ending_of result) }
{
    let mut board = Board::new(alloc, level)?;
    play(alloc, lines, &mut board, out, shelf).map_err(fault_ending)
}

// Returns how the command ends if a session stopped with `fault`.
fn fault_ending(fault: PlayFault) -> Ending
    ensures { result ≡ ending_by fault }
{
    match fault {
        PlayFault::WriteFault => Ending::WriteFault,
        PlayFault::ShelfFault => Ending::ShelfFault,
        PlayFault::NoMemory => Ending::NoMemory,
    }
}
