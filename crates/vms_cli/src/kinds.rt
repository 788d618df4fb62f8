// The commands `save` and `load` on a board of each kind.
ghost use Rattle.std.specs.Prelude.{Some};
ghost use Rattle.vms_io.specs.Told.{outlet, stock};
ghost use Rattle.vms_commands.specs.Asks.{board_asked};
ghost use Rattle.vms_commands.specs.Endings.{ending_of};
ghost use Rattle.vms_board_commands.specs.Runs.{Runs, RunsAside, frame};
ghost use Rattle.vms_cli.specs.Asks.{saved_asked};
ghost use Rattle.vms_cli.specs.Commands.{Load, Save, doing};

use crate::boards::SavedBoard;
use std::alloc::Global;
use vms_board::{ClockDevices, Devices};
use vms_board_commands::{OnBoard, Saving, load_board, save_board};
use vms_commands::{BoardKind, BoardWord, Ending};
use vms_io::{Shelf, Sink, Source};

/// The board that a stream restores, and the script that runs on it then.
#[derive(Clone, Copy)]
pub(crate) struct Loading<'a> {
    pub(crate) board: BoardWord,
    pub(crate) script: &'a str,
}

/// Runs a script on a board and writes the board's stream to `out`, under a set of its kind.
///
/// # Errors
///
/// An [`Ending`] if the script can't be read, `out` fails or memory runs out.
// Not inlined, like `load`, `play_board` and `drill_board`, so that the other commands' stack has no board.
#[inline(never)]
pub(crate) fn save<O: Sink, H: Shelf>(
    alloc: Global,
    board: SavedBoard,
    script: &str,
    out: &mut O,
    shelf: &mut H,
) -> Result<(), Ending>
    ensures { let asked = saved_asked board in RunsAside (doing (Save asked.0 asked.1 script.now))
        (outlet O.Sink out.old) (outlet O.Sink out.new)
        (stock H.Shelf shelf.old) (stock H.Shelf shelf.new) (ending_of result) }
{
    let asked = Saving {
        number: board.number,
        set: board.set,
        script,
    };
    match board.kind {
        BoardKind::Isa => save_board::<Devices, O, H>(alloc, asked, out, shelf),
        BoardKind::Clock => save_board::<ClockDevices, O, H>(alloc, asked, out, shelf),
    }
}

/// Restores a board from the stream in `input` and runs a script on it.
///
/// # Errors
///
/// An [`Ending`] if the script can't be read, the stream is refused, `input` or `out` fails, or
/// memory runs out.
#[inline(never)]
pub(crate) fn load<I: Source, O: Sink, H: Shelf>(
    alloc: Global,
    loading: Loading,
    input: &mut I,
    out: &mut O,
    shelf: &mut H,
) -> Result<(), Ending>
    ensures { Runs (doing (Load (board_asked loading.entry.board) loading.entry.script.now))
        (frame I.Source O.Sink H.Shelf input.old out.old shelf.old)
        (frame I.Source O.Sink H.Shelf input.new out.new shelf.new) (ending_of result) }
{
    let asked = OnBoard {
        number: loading.board.number,
        script: loading.script,
    };
    match loading.board.kind {
        BoardKind::Isa => load_board::<Devices, I, O, H>(alloc, asked, input, out, shelf),
        BoardKind::Clock => load_board::<ClockDevices, I, O, H>(alloc, asked, input, out, shelf),
    }
}
