// Arguments that name a set or a board.
ghost use Rattle.std.specs.Prelude.{◌≡◌, ◌-◌, ◌≤◌, suc, IfSome};
ghost use Rattle.std.specs.Option.{option_map};
ghost use Rattle.vms_commands.specs.Asks.{board_asked, set_asked, shipped_asked};
ghost use Rattle.vms_commands.specs.SetWords.{board_word, number_after, set_word, shipped_word};

use crate::kinds::KINDS;
use crate::set_words::{BoardWord, SetWord, ShippedSet};
use vms_script::{is_shelf_name, number_of};

/// Returns the set that `word` names: a shipped set by its word, or a file by its name on the
/// shelf.
///
/// Returns `None` if `word` is neither.
pub fn set_word(word: &str) -> Option<SetWord<'_>>
    ensures { option_map set_asked result ≡ set_word word.now }
{
    match shipped_set(word) {
        Some(set) => Some(SetWord::Shipped(set)),
        None if is_shelf_name(word.as_bytes()) => Some(SetWord::OnShelf(word)),
        None => None,
    }
}

/// Returns the shipped set that `word` names: `@` or `@c`, and the set's number in decimal.
///
/// Returns `None` if there is no such set.
pub fn shipped_set(word: &str) -> Option<ShippedSet>
    ensures { option_map shipped_asked result ≡ shipped_word word.now }
{
    for kind in KINDS {
        if let Some(number) = number_after(
            kind.set_front(),
            kind.first_set(),
            kind.newest(),
            word,
        ) {
            return Some(ShippedSet { kind, number });
        }
    }
    None
}

/// Returns the board that `word` names: `isa-` or `clk-`, and the board's number in decimal.
///
/// Returns `None` if there is no such board.
pub fn board_word(word: &str) -> Option<BoardWord>
    ensures { option_map board_asked result ≡ board_word word.now }
{
    for kind in KINDS {
        if let Some(number) = number_after(kind.board_front(), 1, kind.newest(), word) {
            return Some(BoardWord { kind, number });
        }
    }
    None
}

/// Returns the number whose decimal text `word` has after `front`, if it is from `first` to `last`.
fn number_after(front: &[u8], first: u8, last: u8, word: &str) -> Option<u8>
    ensures number { result ≡ number_after front.now first (suc last - first) word.now }
    ensures within { IfSome result (λ number. (first ≤ number) × (number ≤ last)) }
{
    let Some(digits) = word.as_bytes().strip_prefix(front) else {
        return None;
    };
    match number_of(digits) {
        Ok(number) if number >= u64::from(first) && number <= u64::from(last) => Some(number as u8),
        _ => None,
    }
}
