// Saves a board's stream to the caller's memory, and restores it from there.
ghost use Rattle.std.specs.Prelude.{◌≡◌};
ghost use Rattle.vmstate_board_c.specs.Answers.{board_of};
ghost use Rattle.vmstate_board_c.specs.Streams.{HasRestored, HasSaved, IsRestored, Lands, SavedIf, may_save_in, nothing_restored, refused_said, stream_in};

use crate::answer::{CNumber, no_number};
use crate::handle::Handle;
use crate::status::{DONE, NO_BOARD, NO_MEMORY, NONE_SUCH, REFUSED, TOO_SMALL};
use std::alloc::Global;
use vms_board::{Machine, MachineBoard, Refusal, RestoreFault};
use vms_board_streams::{Growing, Lent};

// The room that a stream gets at first, enough for that of a board with its description.
const ROOM: usize = 8192;

/// The result of a restore.
///
/// With the status 0, `offset` is the length of the stream. With 1, the stream is refused and the
/// fields say why. With 3, the handle owns no board. All other fields are 0.
#[repr(C)]
#[derive(Clone, Copy)]
pub struct CRestored {
    /// The status: 0, 1 or 3.
    pub status: u32,
    /// The device that the refusal names, or 2^32 - 1 if it names none.
    pub device: u32,
    /// The offset of the refusal, or the length of the stream, in bytes.
    pub offset: u64,
    /// The number of the reason, from 1 on.
    pub reason: u32,
    /// The number of the device's rule that fails, or 0.
    pub rule: u32,
}

/// Writes the board's stream under set `set` to the beginning of `room`.
///
/// The stream has the board's description if `describe` is set. The number is the length of the
/// stream. The board is unchanged. The status is 100 if `room` is too small for the stream, and the
/// number is then its length too. It is 2 if the board can't be saved under `set`, 3 if the handle
/// owns no board, and 10 if memory runs out. If it isn't 0, `room` is unchanged.
#[unsafe(no_mangle)]
pub extern "C" fn vmstate_board_save(
    alloc: Global,
    handle: &mut Handle,
    set: u8,
    describe: bool,
    room: &mut [u8],
) -> CNumber
    ensures same { board_of handle.new ≡ board_of handle.old }
    ensures saved { HasSaved set describe (board_of handle.old) room.old room.new result }
{
    let Some(held) = handle.take(alloc) else {
        return no_number(NO_BOARD);
    };
    let answer = held.board.save(alloc, set, describe, room);
    *handle = Handle::of(held);
    answer
}

/// Writes the stream of a board of one kind to `room`, as [`vmstate_board_save`] does.
pub(crate) fn save<M: Machine>(
    alloc: Global,
    board: &MachineBoard<M>,
    set: u8,
    describe: bool,
    room: &mut [u8],
) -> CNumber
    ensures { SavedIf (may_save_in M.family set board.now) (stream_in M.family set describe board.now)
        room.old room.new result }
{
    if board.number() > set || set > M::newest() {
        return no_number(NONE_SUCH);
    }
    let Ok(mut sink) = Growing::with_room(alloc, ROOM) else {
        return no_number(NO_MEMORY);
    };
    let saved = if describe {
        board.save(alloc, set, &mut sink)
    } else {
        board.save_bare(alloc, set, &mut sink)
    };
    match saved {
        Ok(()) => land(&sink.into_bytes(), room),
        Err(_) => no_number(NO_MEMORY),
    }
}

fn land(bytes: &[u8], room: &mut [u8]) -> CNumber
    ensures { Lands bytes.now room.old room.new result }
{
    let number = bytes.len() as u64;
    if bytes.len() > room.len() {
        return CNumber {
            status: TOO_SMALL,
            number,
        };
    }
    room[..bytes.len()].copy_from_slice(bytes);
    CNumber {
        status: DONE,
        number,
    }
}

/// Restores the board from `stream`.
///
/// The status is 1 if the stream is refused, and 3 if the handle owns no board. If it isn't 0, the
/// board is unchanged.
#[unsafe(no_mangle)]
pub extern "C" fn vmstate_board_restore(
    alloc: Global,
    handle: &mut Handle,
    stream: &[u8],
) -> CRestored
    ensures { HasRestored stream.now (board_of handle.old) (board_of handle.new) result }
{
    let Some(mut held) = handle.take(alloc) else {
        return nothing(NO_BOARD);
    };
    let answer = held.board.restore(stream);
    *handle = Handle::of(held);
    answer
}

/// Restores a board of one kind from `stream`, as [`vmstate_board_restore`] does.
pub(crate) fn restore<M: Machine>(board: &mut MachineBoard<M>, stream: &[u8]) -> CRestored
    ensures { IsRestored M.family stream.now board.old board.new result }
{
    let mut source = Lent::new(stream);
    match board.restore(&mut source) {
        Ok(()) => CRestored {
            offset: board.taken(),
            ..nothing(DONE)
        },
        Err(RestoreFault::Refused(refusal)) => refused(refusal),
        Err(RestoreFault::ReadFault) => unreachable!(),
    }
}

fn refused(refusal: Refusal) -> CRestored
    ensures { result ≡ refused_said refusal }
{
    CRestored {
        status: REFUSED,
        device: match refusal.section {
            Some(device) => device,
            None => u32::MAX,
        },
        offset: refusal.at,
        reason: u32::from(refusal.reason.number()),
        rule: match refusal.reason.rule() {
            Some(rule) => u32::from(rule),
            None => 0,
        },
    }
}

fn nothing(status: u32) -> CRestored
    ensures { result ≡ nothing_restored status }
{
    CRestored {
        status,
        device: 0,
        offset: 0,
        reason: 0,
        rule: 0,
    }
}
