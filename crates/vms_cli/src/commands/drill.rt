// The command `drill`, of a board that a word names.
ghost use Rattle.std.specs.Prelude.{◌≡◌, Some};
ghost use Rattle.std.specs.Option.{option_map};
ghost use Rattle.vms_io.specs.Told.{Stock, outlet};
ghost use Rattle.vms_commands.specs.Endings.{ending_of};
ghost use Rattle.vms_board_commands.specs.Runs.{RunsAside};
ghost use Rattle.vms_commands.specs.SetWords.{board_word};
ghost use Rattle.vms_cli.specs.Boards.{isa_level, number_word};
ghost use Rattle.vms_cli.specs.Commands.DrillCommand.{few_events};
ghost use Rattle.vms_cli.specs.Commands.{Drill, asked, doing, drill_of};

use super::Command;
use crate::board_words::{events_word, isa_board, number_word};
use crate::boards::IsaBoard;
use std::alloc::Global;
use vms_board_commands::drill_board;
use vms_commands::Ending;
use vms_io::Sink;

/// Returns the command `drill` of the board and the numbers that three words name.
pub(crate) fn drill_of<'a>(board: &str, seed: &str, count: &str) -> Option<Command<'a>>
    ensures { option_map asked result ≡ drill_of (isa_level (board_word board.now))
        (number_word seed.now) (few_events (number_word count.now)) }
{
    match (isa_board(board), number_word(seed), events_word(count)) {
        (Some(board), Some(seed), Some(count)) => Some(Command::Drill { board, seed, count }),
        _ => None,
    }
}

/// Runs a drill and writes its line to `out`.
///
/// # Errors
///
/// Those of [`drill_board`].
pub(crate) fn drill<O: Sink>(
    alloc: Global,
    board: IsaBoard,
    seed: u64,
    count: u32,
    out: &mut O,
) -> Result<(), Ending>
    ensures { (shelf : Stock) → RunsAside (doing (Drill board.level seed count))
        (outlet O.Sink out.old) (outlet O.Sink out.new) shelf shelf (ending_of result) }
{
    drill_board(alloc, board.level, seed, count, out)
}
