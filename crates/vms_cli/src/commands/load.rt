// The arguments of the command `load`.
ghost use Rattle.std.specs.Prelude.{◌≡◌};
ghost use Rattle.std.specs.Option.{option_map};
ghost use Rattle.vms_commands.specs.SetWords.{board_word};
ghost use Rattle.vms_cli.specs.Commands.{Load, asked, with_file};

use super::Command;
use vms_commands::board_word;
use vms_script::is_shelf_name;

/// Returns the command `load` of the board that a word names and the name of a script.
pub(crate) fn load_of<'a>(board: &str, script: &'a str) -> Option<Command<'a>>
    ensures { option_map asked result ≡ with_file Load (board_word board.now) script.now }
{
    match board_word(board) {
        Some(board) if is_shelf_name(script.as_bytes()) => Some(Command::Load { board, script }),
        _ => None,
    }
}
