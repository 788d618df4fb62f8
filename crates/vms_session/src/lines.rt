// The lines of a session, one after the other.
ghost use Rattle.std.specs.Prelude.{◌≡◌, List, Some};
ghost use Rattle.dev_board.specs.Sound.{IsSound};
ghost use Rattle.vms_io.specs.Shelves.{Held};
ghost use Rattle.vms_io.specs.Told.{outlet, stock};
ghost use Rattle.vms_commands.specs.Outcomes.{Part};
ghost use Rattle.vms_script.specs.Grammar.{AreLines};
ghost use Rattle.vms_script.specs.Views.{lines_view};
ghost use Rattle.vms_session.specs.Session.{Session};
ghost use Rattle.vms_session.specs.Parts.{Plays};
ghost use Rattle.vms_session.specs.Playing.{Goes, LinesEnd, session_of};

use crate::line::{PlayFault, play_line};
use std::alloc::Global;
use vms_board::{Board, Devices};
use vms_board_streams::KeptSets;
use vms_io::{Shelf, Sink};
use vms_script::Line;

/// Plays `lines` on `board` and `shelf`, and appends their trace to `out`.
///
/// Each set that lines save under is made once.
///
/// # Requires
///
/// Each line is one that [`read_script`](vms_script::read_script) reads for the level of `board`.
///
/// # Errors
///
/// After an error the shelf is as after some first lines, and their trace has been written.
///
/// - [`PlayFault::WriteFault`]: `out` failed. A prefix of the last line's text may have been
///   written too.
/// - [`PlayFault::ShelfFault`]: `shelf` failed. What one name holds may be unknown.
/// - [`PlayFault::NoMemory`]: out of memory.
pub fn play<K: Sink, H: Shelf>(
    alloc: Global,
    lines: &[Line],
    board: &mut Board,
    out: &mut K,
    shelf: &mut H,
) -> Result<(), PlayFault>
    requires { AreLines (Some board.old.state.level) (lines_view lines.now) }
    ensures content { (held : Held) (parts : List Part) (new : Session)
        → H.held shelf.old ≡ Some held
        → Plays (lines_view lines.now) (session_of board.old.state held) parts new
        → LinesEnd parts new (outlet K.Sink out.old) (outlet K.Sink out.new)
        (stock H.Shelf shelf.old) (stock H.Shelf shelf.new) board.new.state result }
    ensures goes { Goes (outlet K.Sink out.old) (outlet K.Sink out.new)
        (stock H.Shelf shelf.old) (stock H.Shelf shelf.new) result }
    ensures sound { IsSound board.new.state }
    ensures level { board.new.state.level ≡ board.old.state.level }
{
    let mut sets = KeptSets::new::<Devices>(alloc);
    for line in lines {
        match play_line(line, board, &mut sets, out, shelf) {
            Ok(()) => {}
            Err(fault) => {
                board.is_sound();
                return Err(fault);
            }
        }
    }
    board.is_sound();
    Ok(())
}
