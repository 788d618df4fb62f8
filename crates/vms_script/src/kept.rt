// What the reader keeps of the lines of a script.
ghost use Rattle.std.specs.Prelude.{◌≡◌, ℕ, Option, None};
ghost use Rattle.vms_script.specs.Lines.{Happens, ScriptLine, play_line};
ghost use Rattle.vms_script.specs.Views.{IsKept};

use crate::line::{Line, ScriptReason};
use crate::session::read_session;
use dev_board::Event;
use std::alloc::Global;

/// Why nothing is kept of a line.
#[derive(Clone, Copy)]
pub(crate) enum Unkept {
    /// The line is refused for this reason.
    Refused(ScriptReason),
    /// Out of memory.
    NoMemory,
}

/// What the reader keeps of a line.
pub(crate) trait Kept: Drop {
    /// The line that the value means.
    ghost said: { Self → ScriptLine };

    /// The scripts of which every line can be kept, by the level of their session's board, if they
    /// have one.
    ghost keeps: { Option ℕ → Type 0 };

    /// Returns what is kept of `event`.
    fn of_event(event: Event) -> Self
        ensures { said result ≡ Happens event };

    /// Returns what is kept of a line that only a session has, with the first word `word` and the
    /// rest `rest`.
    ///
    /// # Errors
    ///
    /// - [`Unkept::Refused`]: the line is refused.
    /// - [`Unkept::NoMemory`]: out of memory.
    fn of_session(alloc: Global, play: Option<u8>, word: &[u8], rest: &[u8]) -> Result<Self, Unkept>
        requires { keeps play }
        ensures { IsKept said (play_line play word.now rest.now) result };
}

/// Keeps every line.
impl Kept for Line {
    ghost use Rattle.vms_script.specs.Views.{line_view};

    ghost said = { line_view };

    ghost keeps = { λ play. Unit {0} };

    fn of_event(event: Event) -> Self {
        Line::Event(event)
    }

    fn of_session(
        alloc: Global,
        play: Option<u8>,
        word: &[u8],
        rest: &[u8],
    ) -> Result<Self, Unkept> {
        let Some(level) = play else {
            return Err(Unkept::Refused(ScriptReason::Form));
        };
        match read_session(level, word, rest) {
            Ok(line) => match Box::new(alloc, line) {
                Ok(line) => Ok(Line::Session(line)),
                Err(_) => Err(Unkept::NoMemory),
            },
            Err(reason) => Err(Unkept::Refused(reason)),
        }
    }
}

/// Keeps events only, of scripts without a session.
impl Kept for Event {
    ghost said = { Happens };

    ghost keeps = { λ play. play ≡ None };

    fn of_event(event: Event) -> Self {
        event
    }

    fn of_session(_: Global, _: Option<u8>, _: &[u8], _: &[u8]) -> Result<Self, Unkept> {
        Err(Unkept::Refused(ScriptReason::Form))
    }
}
