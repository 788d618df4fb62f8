// A board's streams on a shelf.
ghost use Rattle.std.specs.Prelude.{◌≡◌, ◌≤◌, List, ℕ, Some, length};
ghost use Rattle.dev_board.specs.Saved.{MaySaveUnder};
ghost use Rattle.vms_board.specs.Isa.{isa};
ghost use Rattle.vms_board.specs.Saving.{saved_stream};
ghost use Rattle.vms_board_streams.specs.Sets.{AreOf};
ghost use Rattle.vms_io.specs.Shelves.{Held};
ghost use Rattle.vms_io.specs.Told.{stock};
ghost use Rattle.vms_commands.specs.Fetching.{longest_file};
ghost use Rattle.vms_session.specs.Session.{LoadsBytes, LoadsHeld, Session};
ghost use Rattle.vms_session.specs.Playing.{session_of};
ghost use Rattle.vms_session.specs.Streams.{LoadsAs, LooksUp, SavesUnder};

use crate::line::PlayFault;
use crate::mark::{mark, refused_mark, restored_mark};
use std::alloc::Global;
use vms_board::Board;
use vms_board_streams::{KeptSets, restore_from, stream_by};
use vms_commands::{LONGEST_FILE, NoteLine};
use vms_io::{FetchFault, Shelf, StoreFault};

/// Stores the stream of `board` under the set `set` as `name`, and keeps the set in `sets`. Returns
/// the number of its bytes.
///
/// # Errors
///
/// - [`PlayFault::ShelfFault`]: `shelf` failed.
/// - [`PlayFault::NoMemory`]: out of memory. Nothing has been stored.
pub(crate) fn save<H: Shelf>(
    board: &Board,
    set: u8,
    name: &str,
    sets: &mut KeptSets,
    shelf: &mut H,
) -> Result<u64, PlayFault>
    requires may { MaySaveUnder board.now.state.level set }
    requires sets { AreOf isa sets.old }
    ensures saves { SavesUnder name.now (saved_stream isa set board.now.state)
        (stock H.Shelf shelf.old) (stock H.Shelf shelf.new) result }
    ensures sets { AreOf isa sets.new }
{
    let Ok(stream) = stream_by(sets.alloc(), board, set, sets) else {
        return Err(PlayFault::NoMemory);
    };
    match shelf.store(name, &stream) {
        Ok(()) => Ok(stream.len() as u64),
        Err(StoreFault::Failed) => Err(PlayFault::ShelfFault),
        Err(StoreFault::NoMemory) => Err(PlayFault::NoMemory),
    }
}

/// Restores `board` from the stream `name`, if it restores one. Returns the line about it.
///
/// # Errors
///
/// - [`PlayFault::ShelfFault`]: `shelf` failed.
/// - [`PlayFault::NoMemory`]: out of memory.
pub(crate) fn restore<H: Shelf>(
    alloc: Global,
    board: &mut Board,
    name: &str,
    shelf: &mut H,
) -> Result<NoteLine, PlayFault>
    ensures loaded { (held : Held) (text : List ℕ) (new : Session) → H.held shelf.old ≡ Some held
        → LoadsHeld (held name.now) (session_of board.old.state held) text new
        → LoadsAs text new board.new.state result }
    ensures looks { LooksUp (stock H.Shelf shelf.old) (stock H.Shelf shelf.new) result }
    ensures level { board.new.state.level ≡ board.old.state.level }
{
    match shelf.fetch(alloc, name, LONGEST_FILE) {
        Ok(stream) => Ok(load(board, stream)),
        Err(FetchFault::NotThere) => Ok(mark(b"missing\n")),
        Err(FetchFault::TooLarge) => Ok(mark(b"too large\n")),
        Err(FetchFault::Failed) => Err(PlayFault::ShelfFault),
        Err(FetchFault::NoMemory) => Err(PlayFault::NoMemory),
    }
}

// Restores a board from a stream, if it restores one. Returns the line about it.
fn load(board: &mut Board, stream: Vec<u8>) -> NoteLine
    requires { length stream.items ≤ longest_file }
    ensures text { (held : Held) (text : List ℕ) (new : Session)
        → LoadsBytes stream.items (session_of board.old.state held) text new → result.items ≡ text }
    ensures board { (held : Held) (text : List ℕ) (new : Session)
        → LoadsBytes stream.items (session_of board.old.state held) text new
        → board.new.state ≡ new.board }
    ensures level { board.new.state.level ≡ board.old.state.level }
{
    match restore_from(board, stream) {
        Ok(()) => restored_mark(board.taken()),
        Err(refusal) => refused_mark(board.set(), &refusal),
    }
}
