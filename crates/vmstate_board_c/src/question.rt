// Questions about a board, which don't change it. The status of each is 3 if the handle owns no
// board.
ghost use Rattle.std.specs.Prelude.{◌≡◌, MatchOption};
ghost use Rattle.std.specs.Fn.{FnReturnsAt};
ghost use Rattle.vmstate_board_c.specs.Answers.{DueTold, board_of, flag as flag_of, no_number as no_number_of, number as number_of, output_told, told};
ghost use Rattle.vmstate_board_c.specs.Kinds.{character_of, has_port_of, int_of, level_of, now_of, room_of};

use crate::answer::{CNumber, flag, no_number, number, wait_number};
use crate::handle::Handle;
use crate::kinds::AnyBoard;
use crate::status::{NO_BOARD, NONE_SUCH};
use std::alloc::Global;

// Returns what `answer` says of the board in `handle`, which keeps it.
#[inline(always)]
fn ask<F: Fn(&AnyBoard) -> CNumber>(alloc: Global, handle: &mut Handle, answer: F) -> CNumber
    requires { F.IsAlwaysCallable answer }
    ensures same { board_of handle.new ≡ board_of handle.old }
    ensures number { MatchOption (board_of handle.old) (result ≡ no_number_of 3)
        (λ board. FnReturnsAt F.Fn answer board result) }
{
    let Some(held) = handle.take(alloc) else {
        return no_number(NO_BOARD);
    };
    let answer = answer(&held.board);
    *handle = Handle::of(held);
    answer
}

/// Returns 1 if the interrupt output is high, else 0; `handle` keeps its board.
#[unsafe(no_mangle)]
pub extern "C" fn vmstate_board_int(alloc: Global, handle: &mut Handle) -> CNumber
    ensures same { board_of handle.new ≡ board_of handle.old }
    ensures number { result ≡ told (λ m. flag_of (int_of m)) (board_of handle.old) }
{
    ask(alloc, handle, |board| flag(board.int()))
}

/// Returns how many bytes may arrive on the serial line of the board in `handle` before one is
/// lost.
#[unsafe(no_mangle)]
pub extern "C" fn vmstate_board_room(alloc: Global, handle: &mut Handle) -> CNumber
    ensures same { board_of handle.new ≡ board_of handle.old }
    ensures number { result ≡ told (λ m. number_of (room_of m)) (board_of handle.old) }
{
    ask(alloc, handle, |board| number(u64::from(board.room())))
}

/// Returns the time of one character on the serial line of the board in `handle`, in nanoseconds.
#[unsafe(no_mangle)]
pub extern "C" fn vmstate_board_character(alloc: Global, handle: &mut Handle) -> CNumber
    ensures same { board_of handle.new ≡ board_of handle.old }
    ensures number { result ≡ told (λ m. number_of (character_of m)) (board_of handle.old) }
{
    ask(alloc, handle, |board| number(board.character()))
}

/// Returns 1 if a device of the board uses the port `port`, else 0.
#[unsafe(no_mangle)]
pub extern "C" fn vmstate_board_has_port(alloc: Global, handle: &mut Handle, port: u16) -> CNumber
    ensures same { board_of handle.new ≡ board_of handle.old }
    ensures number { result ≡ told (λ m. flag_of (has_port_of port m)) (board_of handle.old) }
{
    ask(alloc, handle, |board| flag(board.has_port(port)))
}

/// Returns the moment of the board in `handle`, in nanoseconds since power on.
#[unsafe(no_mangle)]
pub extern "C" fn vmstate_board_now(alloc: Global, handle: &mut Handle) -> CNumber
    ensures same { board_of handle.new ≡ board_of handle.old }
    ensures number { result ≡ told (λ m. number_of (now_of m)) (board_of handle.old) }
{
    ask(alloc, handle, |board| number(board.now()))
}

/// Returns the level of the board in `handle`, or the version of its clock chip.
#[unsafe(no_mangle)]
pub extern "C" fn vmstate_board_level(alloc: Global, handle: &mut Handle) -> CNumber
    ensures same { board_of handle.new ≡ board_of handle.old }
    ensures number { result ≡ told (λ m. number_of (level_of m)) (board_of handle.old) }
{
    ask(alloc, handle, |board| number(u64::from(board.level())))
}

/// Returns 1 if OUT of counter `counter`, 0 to 2, is high at the board's moment, else 0.
///
/// The status is 2 if there is no such counter.
#[unsafe(no_mangle)]
pub extern "C" fn vmstate_board_output(alloc: Global, handle: &mut Handle, counter: u8) -> CNumber
    ensures same { board_of handle.new ≡ board_of handle.old }
    ensures number { result ≡ output_told counter (board_of handle.old) }
{
    if counter > 2 {
        return no_number(NONE_SUCH);
    }
    ask(alloc, handle, |board| flag(board.output(counter)))
}

/// Returns the least wait, in nanoseconds, after which the interrupt output has changed or bytes have
/// left the serial port, or 2^64 - 1 if no wait changes it and none lets bytes leave.
#[unsafe(no_mangle)]
pub extern "C" fn vmstate_board_due(alloc: Global, handle: &mut Handle) -> CNumber
    ensures same { board_of handle.new ≡ board_of handle.old }
    ensures number { DueTold (board_of handle.old) result }
{
    ask(alloc, handle, |board| wait_number(board.due()))
}
