// The command `play`, of a board that a word names.
ghost use Rattle.std.specs.Prelude.{◌≡◌, Some};
ghost use Rattle.std.specs.Option.{option_map};
ghost use Rattle.vms_io.specs.Told.{outlet, stock};
ghost use Rattle.vms_commands.specs.Endings.{ending_of};
ghost use Rattle.vms_board_commands.specs.Runs.{RunsAside};
ghost use Rattle.vms_commands.specs.SetWords.{board_word};
ghost use Rattle.vms_cli.specs.Boards.{isa_level};
ghost use Rattle.vms_cli.specs.Commands.{Play, asked, doing, with_file};

use super::Command;
use crate::board_words::isa_board;
use crate::boards::IsaBoard;
use std::alloc::Global;
use vms_board_commands::{OnBoard, play_board};
use vms_commands::Ending;
use vms_io::{Shelf, Sink};
use vms_script::is_shelf_name;

/// Returns the command `play` of the board that a word names and the name of a script.
pub(crate) fn play_of<'a>(board: &str, script: &'a str) -> Option<Command<'a>>
    ensures { option_map asked result
        ≡ with_file Play (isa_level (board_word board.now)) script.now }
{
    match isa_board(board) {
        Some(board) if is_shelf_name(script.as_bytes()) => Some(Command::Play { board, script }),
        _ => None,
    }
}

/// Plays a session on a board at power on and the files in `shelf`, and writes its trace to `out`.
///
/// # Errors
///
/// Those of [`play_board`].
pub(crate) fn play<O: Sink, H: Shelf>(
    alloc: Global,
    board: IsaBoard,
    script: &str,
    out: &mut O,
    shelf: &mut H,
) -> Result<(), Ending>
    ensures { RunsAside (doing (Play board.level script.now))
        (outlet O.Sink out.old) (outlet O.Sink out.new)
        (stock H.Shelf shelf.old) (stock H.Shelf shelf.new) (ending_of result) }
{
    let asked = OnBoard {
        number: board.level,
        script,
    };
    play_board(alloc, asked, out, shelf)
}
