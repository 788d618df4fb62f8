// A board that goes on as the one that its own stream restores.
ghost use Rattle.std.specs.Prelude.{IfOk};
ghost use Rattle.dev_board.specs.Sound.{IsSound};
ghost use Rattle.vms_board_commands.specs.DrillProgress.{ComesBack, set_of};
ghost use Rattle.vms_board.specs.Isa.{isa};
ghost use Rattle.vms_board_streams.specs.Sets.{AreOf};

use super::schedule::set_of;
use std::alloc::Global;
use vms_board::Board;
use vms_board_streams::{KeptSets, restore_from, stream_by};
use vms_io::NoMemory;

/// Saves `board` and restores it from the stream. `saves` is the number of saves before. Returns
/// the stream's length.
///
/// # Errors
///
/// [`NoMemory`] if memory runs out.
pub(crate) fn come_back(
    alloc: Global,
    board: &mut Board,
    sets: &mut KeptSets,
    saves: u32,
) -> Result<u64, NoMemory>
    requires sound { IsSound board.old.state }
    requires sets { AreOf isa sets.old }
    ensures back { IfOk result (ComesBack (set_of board.old.state.level saves) board.old.state
        board.new.state board.new.taken) }
    ensures sound { IsSound board.new.state }
    ensures sets { AreOf isa sets.new }
{
    let stream = stream_by(alloc, board, set_of(board.level(), saves), sets)?;
    let long = stream.len() as u64;
    match restore_from(board, stream) {
        Ok(()) => Ok(long),
        // A board reads its own stream.
        Err(_) => unreachable!(),
    }
}
