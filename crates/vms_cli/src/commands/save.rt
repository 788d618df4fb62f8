// The arguments of the command `save`.
ghost use Rattle.std.specs.Prelude.{◌≡◌};
ghost use Rattle.std.specs.Option.{option_map};
ghost use Rattle.vms_commands.specs.Asks.{board_asked, shipped_asked};
ghost use Rattle.vms_commands.specs.SetWords.{board_word, shipped_word};
ghost use Rattle.vms_cli.specs.Commands.SaveCommand.{saved_set};
ghost use Rattle.vms_cli.specs.Commands.{Save, asked, save_of};

use super::Command;
use crate::boards::SavedBoard;
use vms_commands::{BoardWord, ShippedSet, board_word, shipped_set};
use vms_script::{is_set_of, is_shelf_name};

/// Returns the command `save` of the board and the set that two words name, and the name of a
/// script.
pub(crate) fn save_of<'a>(board: &str, set: &str, script: &'a str) -> Option<Command<'a>>
    ensures { option_map asked result
        ≡ save_of (board_word board.now) (shipped_word set.now) script.now }
{
    if !is_shelf_name(script.as_bytes()) {
        return None;
    }
    match (board_word(board), shipped_set(set)) {
        (Some(board), Some(set)) => save_under(board, set, script),
        _ => None,
    }
}

// Returns the command that saves a board under a set, if that is of the board's kind and at or above it.
fn save_under<'a>(board: BoardWord, set: ShippedSet, script: &'a str) -> Option<Command<'a>>
    ensures { option_map asked result
        ≡ option_map (λ number. Save (board_asked board) number script.now)
        (saved_set (board_asked board) (shipped_asked set)) }
{
    if board.kind != set.kind || !is_set_of(board.kind.newest(), board.number, set.number.into()) {
        return None;
    }
    let board = SavedBoard {
        kind: board.kind,
        number: board.number,
        set: set.number,
    };
    Some(Command::Save { board, script })
}
