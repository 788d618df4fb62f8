// One line of a session.
ghost use Rattle.std.specs.Prelude.{◌≡◌, ℕ, List, [], ◌∷◌, Some};
ghost use Rattle.vms_board.specs.Isa.{isa};
ghost use Rattle.vms_board_streams.specs.Sets.{AreOf};
ghost use Rattle.vms_io.specs.Shelves.{Held};
ghost use Rattle.vms_io.specs.Told.{outlet, stock};
ghost use Rattle.vms_script.specs.Grammar.{IsLine};
ghost use Rattle.vms_script.specs.Trace.{trace_line};
ghost use Rattle.vms_script.specs.Views.{line_view, session_view};
ghost use Rattle.vms_session.specs.Parts.{part_of};
ghost use Rattle.vms_session.specs.Session.{Does, Session};
ghost use Rattle.vms_session.specs.Playing.{Goes, LinesEnd, WritesText, session_of};

use crate::mark::saved_mark;
use crate::shelf::{restore, save};
use dev_board::Answer;
use vms_board::Board;
use vms_board_streams::KeptSets;
use vms_io::{Shelf, Sink, write_all_of};
use vms_script::{Line, SessionLine, print_answer};

/// Why a session stopped.
#[derive(Clone, Copy, Debug, PartialEq, Eq)]
pub enum PlayFault {
    /// The sink failed and has counted a failure. Part of a line's text may have been written.
    WriteFault,
    /// The shelf failed and has counted a failure. If a store failed, what its name holds is
    /// unknown.
    ShelfFault,
    /// Out of memory. The line was not begun.
    NoMemory,
}

/// Runs `line` of a session and appends its text to `out`. The set of a save is kept in `sets`.
///
/// # Errors
///
/// The errors of [`play`](crate::play).
pub(crate) fn play_line<K: Sink, H: Shelf>(
    line: &Line,
    board: &mut Board,
    sets: &mut KeptSets,
    out: &mut K,
    shelf: &mut H,
) -> Result<(), PlayFault>
    requires line { IsLine (Some board.old.state.level) (line_view line.now) }
    requires sets { AreOf isa sets.old }
    ensures content { (held : Held) (text : List ℕ) (new : Session) → H.held shelf.old ≡ Some held
        → Does (line_view line.now) (session_of board.old.state held) text new
        → LinesEnd (part_of (line_view line.now) text new ∷ []) new
        (outlet K.Sink out.old) (outlet K.Sink out.new)
        (stock H.Shelf shelf.old) (stock H.Shelf shelf.new) board.new.state result }
    ensures goes { Goes (outlet K.Sink out.old) (outlet K.Sink out.new)
        (stock H.Shelf shelf.old) (stock H.Shelf shelf.new) result }
    ensures level { board.new.state.level ≡ board.old.state.level }
    ensures sets { AreOf isa sets.new }
{
    match line {
        Line::Event(event) => write_answer(&board.event(*event), out),
        Line::Session(line) => play_session(line, board, sets, out, shelf),
    }
}

// Runs a line that only a session has and appends its text.
fn play_session<K: Sink, H: Shelf>(
    line: &SessionLine,
    board: &mut Board,
    sets: &mut KeptSets,
    out: &mut K,
    shelf: &mut H,
) -> Result<(), PlayFault>
    requires line { IsLine (Some board.old.state.level) (session_view line.now) }
    requires sets { AreOf isa sets.old }
    ensures content { (held : Held) (text : List ℕ) (new : Session) → H.held shelf.old ≡ Some held
        → Does (session_view line.now) (session_of board.old.state held) text new
        → LinesEnd (part_of (session_view line.now) text new ∷ []) new
        (outlet K.Sink out.old) (outlet K.Sink out.new)
        (stock H.Shelf shelf.old) (stock H.Shelf shelf.new) board.new.state result }
    ensures goes { Goes (outlet K.Sink out.old) (outlet K.Sink out.new)
        (stock H.Shelf shelf.old) (stock H.Shelf shelf.new) result }
    ensures level { board.new.state.level ≡ board.old.state.level }
    ensures sets { AreOf isa sets.new }
{
    match line {
        SessionLine::Save { set, name } => {
            let count = save(board, *set, name.as_str(), sets, shelf)?;
            write(&saved_mark(count), out)
        }
        SessionLine::Restore { name } => {
            let mark = restore(sets.alloc(), board, name.as_str(), shelf)?;
            write(&mark, out)
        }
    }
}

fn write_answer<K: Sink>(answer: &Answer, out: &mut K) -> Result<(), PlayFault>
    ensures { WritesText (trace_line answer.now) (outlet K.Sink out.old) (outlet K.Sink out.new)
        result }
{
    match print_answer(answer, out) {
        Ok(()) => Ok(()),
        Err(_) => Err(PlayFault::WriteFault),
    }
}

fn write<K: Sink>(text: &[u8], out: &mut K) -> Result<(), PlayFault>
    ensures { WritesText text.now (outlet K.Sink out.old) (outlet K.Sink out.new) result }
{
    match write_all_of(out, text) {
        Ok(()) => Ok(()),
        Err(_) => Err(PlayFault::WriteFault),
    }
}
