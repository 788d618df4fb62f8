// Arguments that name a board or a number.
ghost use Rattle.std.specs.Prelude.{◌≡◌};
ghost use Rattle.std.specs.Option.{option_map};
ghost use Rattle.vms_commands.specs.SetWords.{board_word};
ghost use Rattle.vms_cli.specs.Boards.{isa_level, number_word};
ghost use Rattle.vms_cli.specs.Commands.DrillCommand.{few_events};

use crate::boards::IsaBoard;
use vms_commands::{BoardKind, board_word};
use vms_script::number_of;

/// The most events that a drill may have.
const MOST_EVENTS: u64 = 1_000_000;

/// Returns the board `isa-1` to `isa-4` that `word` names.
pub(crate) fn isa_board(word: &str) -> Option<IsaBoard>
    ensures { option_map (λ board. board.level) result ≡ isa_level (board_word word.now) }
{
    match board_word(word) {
        Some(board) if board.kind == BoardKind::Isa => Some(IsaBoard {
            level: board.number,
        }),
        _ => None,
    }
}

/// Returns the number below 2^64 whose decimal text is `word`.
pub(crate) fn number_word(word: &str) -> Option<u64>
    ensures { result ≡ number_word word.now }
{
    match number_of(word.as_bytes()) {
        Ok(number) => Some(number),
        Err(_) => None,
    }
}

/// Returns the number of events of a drill, if `word` is one of at most a million.
pub(crate) fn events_word(word: &str) -> Option<u32>
    ensures { result ≡ few_events (number_word word.now) }
{
    match number_word(word) {
        Some(number) if number <= MOST_EVENTS => Some(number as u32),
        _ => None,
    }
}
