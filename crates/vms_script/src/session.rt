// Lines that only a session has.
ghost use Rattle.std.specs.Prelude.{◌≡◌, ◌&&◌};
ghost use Rattle.vms_script.specs.Lines.{save_line, restore_line, session_line, is_set_of};
ghost use Rattle.vms_script.specs.Views.{read_view};
ghost use Rattle.vms_script.specs.Words.{first_word};

use crate::line::{ScriptReason, SessionLine};
use crate::name::name_of;
use crate::number::number_of;
use crate::split::split_word;
use dev_base::NEWEST;

/// Parses a line of a session on a board of level `level`, with the first word `word` and the rest
/// `rest`.
///
/// # Errors
///
/// The [`ScriptReason`] for which the line is refused.
pub(crate) fn read_session(level: u8, word: &[u8], rest: &[u8]) -> Result<SessionLine, ScriptReason>
    ensures { read_view result ≡ session_line level word.now rest.now }
{
    if word == b"save".as_slice() {
        read_save(level, rest)
    } else if word == b"restore".as_slice() {
        read_restore(rest)
    } else {
        Err(ScriptReason::Form)
    }
}

// Parses the rest of `save @N NAME`, with N a shipped set at or above the level.
fn read_save(level: u8, words: &[u8]) -> Result<SessionLine, ScriptReason>
    ensures { read_view result ≡ save_line level (first_word words.now) }
{
    let split = split_word(words);
    let Some(name) = split.rest else {
        return Err(ScriptReason::Form);
    };
    let Some(name) = name_of(name) else {
        return Err(ScriptReason::Form);
    };
    let Some(number) = split.word.strip_prefix(b"@") else {
        return Err(ScriptReason::Form);
    };
    match number_of(number) {
        Ok(set) => {
            if is_set_of(NEWEST, level, set) {
                let set = set as u8;
                Ok(SessionLine::Save { set, name })
            } else {
                Err(ScriptReason::Range)
            }
        }
        Err(reason) => Err(reason),
    }
}

// Parses the rest of `restore NAME`.
fn read_restore(name: &[u8]) -> Result<SessionLine, ScriptReason>
    ensures { read_view result ≡ restore_line name.now }
{
    match name_of(name) {
        Some(name) => Ok(SessionLine::Restore { name }),
        None => Err(ScriptReason::Form),
    }
}

/// Checks whether the set with number `set` is at or above the board with number `board` and at
/// most `newest`.
///
/// A board can be saved under these sets.
pub fn is_set_of(newest: u8, board: u8, set: u64) -> bool
    ensures { result ≡ is_set_of newest board set }
{
    u64::from(board) <= set && set <= u64::from(newest)
}
