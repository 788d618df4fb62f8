// The calls that create and free a board, and those that are its events.
//
// An event is first tried in a way that makes no list of bytes. The answer of the other way has a
// variable of its own, so that the first one's is made in the caller's place. Before both, the most
// frequent accesses are tried in a way without calls.
ghost use Rattle.std.specs.Prelude.{◌≡◌, [], IsTrue, IfSome, MatchOption, Some, None};
ghost use Rattle.dev_board.specs.declared.event.Event.TheVariants.{Read, Write, Byte};
ghost use Rattle.vmstate_board_c.specs.Answers.{MayAct, Made, acknowledges, acts, acts_after, board_of, event_at, said, time_to, wire_at};
ghost use Rattle.vmstate_board_c.specs.Kinds.{is_made, power_on_of};

use crate::answer::{CAnswer, answered, brief, nothing};
use crate::handle::Handle;
use crate::held::Held;
use crate::kinds::{AnyBoard, is_kind};
use crate::status::{DONE, NO_BOARD, NO_MEMORY, NONE_SUCH, PAST};
use dev_board::{Event, is_wire};
use std::alloc::Global;
use std::mem;

/// Creates the board of kind `kind` and level `level` as it is at power on.
///
/// The board that the handle owned before, if any, is freed. The status is 2 if there is no such
/// board, and 10 if memory runs out; in both cases the handle is unchanged.
#[unsafe(no_mangle)]
pub extern "C" fn vmstate_board_new(alloc: Global, handle: &mut Handle, kind: u8, level: u8) -> u32
    ensures { Made kind level (board_of handle.old) (board_of handle.new) result }
{
    if !is_kind(kind, level) {
        return NONE_SUCH;
    }
    match made(alloc, kind, level) {
        Some(held) => {
            drop(mem::replace(handle, Handle::of(held)).into_box());
            DONE
        }
        None => NO_MEMORY,
    }
}

// Returns a board at power on, on the heap, or `None` if memory runs out.
fn made(alloc: Global, kind: u8, level: u8) -> Option<Box<Held>>
    requires { IsTrue (is_made kind level) }
    ensures { IfSome result (λ held. held.value.board ≡ power_on_of kind level) }
{
    let board = AnyBoard::new(alloc, kind, level).ok()?;
    Box::new(alloc, Held { board }).ok()
}

/// Frees the board that `handle` owns, if any.
#[unsafe(no_mangle)]
pub extern "C" fn vmstate_board_free(alloc: Global, handle: &mut Handle)
    ensures { board_of handle.new ≡ None }
{
    drop(handle.take(alloc));
}

/// Reads the port `port` at `moment`, after time has passed up to it.
///
/// The status is 3 if the handle owns no board, and 4 if `moment` is before the board's.
#[unsafe(no_mangle)]
#[tactic(auto, unfolding(dev_board::specs::Step::names_wire))]
pub extern "C" fn vmstate_board_in(
    alloc: Global,
    handle: &mut Handle,
    moment: u64,
    port: u16,
) -> CAnswer
    ensures { (result, board_of handle.new) ≡ event_at moment (Read port) (board_of handle.old) }
{
    if let Some((value, int)) = at_once(alloc, handle, moment, Event::Read { port }) {
        return brief(value, int);
    }
    read(alloc, handle, moment, port)
}

/// Writes `value` to the port `port` at `moment`, after time has passed up to it.
///
/// The status is 3 if the handle owns no board, and 4 if `moment` is before the board's.
#[unsafe(no_mangle)]
#[tactic(auto, unfolding(dev_board::specs::Step::names_wire))]
pub extern "C" fn vmstate_board_out(
    alloc: Global,
    handle: &mut Handle,
    moment: u64,
    port: u16,
    value: u8,
) -> CAnswer
    ensures { (result, board_of handle.new)
        ≡ event_at moment (Write port value) (board_of handle.old) }
{
    if let Some((value, int)) = at_once(alloc, handle, moment, Event::Write { port, value }) {
        return brief(value, int);
    }
    write(alloc, handle, moment, port, value)
}

/// Receives the byte `value` from the serial line at `moment`, after time has passed up to it.
///
/// The status is 3 if the handle owns no board, and 4 if `moment` is before the board's.
#[unsafe(no_mangle)]
#[tactic(auto, unfolding(dev_board::specs::Step::names_wire))]
pub extern "C" fn vmstate_board_receive(
    alloc: Global,
    handle: &mut Handle,
    moment: u64,
    value: u8,
) -> CAnswer
    ensures { (result, board_of handle.new) ≡ event_at moment (Byte value) (board_of handle.old) }
{
    if let Some((value, int)) = quickly(alloc, handle, moment, Event::Byte { value }) {
        return brief(value, int);
    }
    let answer = access(alloc, handle, moment, Event::Byte { value });
    answer
}

/// Raises the wire `input` at `moment` if `up` is set, else lowers it, after time has passed up to
/// it.
///
/// The status is 2 if `input` is none of 1, 3, 5, 6, 7 and 8 to 15; else 3 if the handle owns no
/// board, and 4 if `moment` is before the board's.
#[unsafe(no_mangle)]
#[tactic(auto, unfolding(dev_board::specs::Step::names_wire))]
pub extern "C" fn vmstate_board_wire(
    alloc: Global,
    handle: &mut Handle,
    moment: u64,
    input: u8,
    up: bool,
) -> CAnswer
    ensures { (result, board_of handle.new) ≡ wire_at moment input up (board_of handle.old) }
{
    if !is_wire(input) {
        return nothing(NONE_SUCH);
    }
    if let Some((value, int)) = quickly(alloc, handle, moment, Event::Wire { input, up }) {
        return brief(value, int);
    }
    let answer = access(alloc, handle, moment, Event::Wire { input, up });
    answer
}

/// Lets time pass up to `moment`.
///
/// The status is 3 if the handle owns no board, and 4 if `moment` is before the board's.
#[unsafe(no_mangle)]
pub extern "C" fn vmstate_board_advance(alloc: Global, handle: &mut Handle, moment: u64) -> CAnswer
    ensures { (result, board_of handle.new) ≡ time_to moment (board_of handle.old) }
{
    if let Some(int) = quick_pass(alloc, handle, moment) {
        return brief(None, int);
    }
    let answer = advance(alloc, handle, moment);
    answer
}

/// Acknowledges an interrupt at the board's moment; `value` of the result is its vector.
///
/// The status is 3 if the handle owns no board.
#[unsafe(no_mangle)]
#[tactic(auto, unfolding(dev_board::specs::Step::names_wire))]
pub extern "C" fn vmstate_board_ack(alloc: Global, handle: &mut Handle) -> CAnswer
    ensures { (result, board_of handle.new) ≡ acknowledges (board_of handle.old) }
{
    let Some(mut held) = handle.take(alloc) else {
        return nothing(NO_BOARD);
    };
    let (value, int) = act(&mut held.board, Event::Ack);
    handle.put(held);
    brief(value, int)
}

// Does `read_on`. It is inlined, so that no other way makes a variable of its answer.
#[inline(always)]
fn read(alloc: Global, handle: &mut Handle, moment: u64, port: u16) -> CAnswer
    ensures { (result, board_of handle.new) ≡ event_at moment (Read port) (board_of handle.old) }
{
    let answer = read_on(alloc, handle, moment, port);
    answer
}

// Reads the port `port` at `moment`. It isn't inlined, so that a frequent read saves no registers.
#[inline(never)]
#[tactic(auto, unfolding(dev_board::specs::Step::names_wire))]
fn read_on(alloc: Global, handle: &mut Handle, moment: u64, port: u16) -> CAnswer
    ensures { (result, board_of handle.new) ≡ event_at moment (Read port) (board_of handle.old) }
{
    if let Some((value, int)) = quickly(alloc, handle, moment, Event::Read { port }) {
        return brief(value, int);
    }
    let answer = access(alloc, handle, moment, Event::Read { port });
    answer
}

// Does `write_on`. It is inlined, as above.
#[inline(always)]
fn write(alloc: Global, handle: &mut Handle, moment: u64, port: u16, value: u8) -> CAnswer
    ensures { (result, board_of handle.new)
        ≡ event_at moment (Write port value) (board_of handle.old) }
{
    let answer = write_on(alloc, handle, moment, port, value);
    answer
}

// Writes `value` to the port `port` at `moment`. It isn't inlined, as above.
#[inline(never)]
#[tactic(auto, unfolding(dev_board::specs::Step::names_wire))]
fn write_on(alloc: Global, handle: &mut Handle, moment: u64, port: u16, value: u8) -> CAnswer
    ensures { (result, board_of handle.new)
        ≡ event_at moment (Write port value) (board_of handle.old) }
{
    if let Some((value, int)) = quickly(alloc, handle, moment, Event::Write { port, value }) {
        return brief(value, int);
    }
    let answer = access(alloc, handle, moment, Event::Write { port, value });
    answer
}

// Applies `event` at `moment` and returns the value and the interrupt output, if that is the board's
// moment and the event a frequent access that touches no line. Otherwise nothing happens.
#[inline(always)]
fn at_once(
    alloc: Global,
    handle: &mut Handle,
    moment: u64,
    event: Event,
) -> Option<(Option<u8>, bool)>
    requires { MayAct event }
    ensures { MatchOption result (board_of handle.new ≡ board_of handle.old)
        (λ done. (said done.0 done.1 [], board_of handle.new)
        ≡ event_at moment event (board_of handle.old)) }
{
    let mut held = handle.take(alloc)?;
    let done = held.board.at_once(moment, event);
    handle.put(held);
    done
}

// Applies `event` at `moment` and returns the value and the interrupt output, if it can be told at
// once that no byte leaves. Otherwise nothing happens, and it returns `None`.
#[inline(always)]
fn quickly(
    alloc: Global,
    handle: &mut Handle,
    moment: u64,
    event: Event,
) -> Option<(Option<u8>, bool)>
    requires { MayAct event }
    ensures { MatchOption result (board_of handle.new ≡ board_of handle.old)
        (λ done. (said done.0 done.1 [], board_of handle.new)
        ≡ event_at moment event (board_of handle.old)) }
{
    let mut held = handle.take(alloc)?;
    let done = held.board.quick_event(moment, event);
    handle.put(held);
    done
}

// Lets time pass up to `moment` and returns the interrupt output, if it can be told at once that no
// byte leaves. Otherwise nothing happens, and it returns `None`.
#[inline(always)]
fn quick_pass(alloc: Global, handle: &mut Handle, moment: u64) -> Option<bool>
    ensures { MatchOption result (board_of handle.new ≡ board_of handle.old)
        (λ int. (said None int [], board_of handle.new) ≡ time_to moment (board_of handle.old)) }
{
    let mut held = handle.take(alloc)?;
    let done = held.board.quick_pass(moment);
    handle.put(held);
    done
}

// Applies `event` at `moment`. It isn't inlined, which keeps the code of most events short.
#[inline(never)]
fn access(alloc: Global, handle: &mut Handle, moment: u64, event: Event) -> CAnswer
    requires { MayAct event }
    ensures { (result, board_of handle.new) ≡ event_at moment event (board_of handle.old) }
{
    let Some(mut held) = handle.take(alloc) else {
        return nothing(NO_BOARD);
    };
    let answer = act_at(&mut held.board, moment, event);
    handle.put(held);
    answer
}

// Lets time pass up to `moment`. It isn't inlined, as above.
#[inline(never)]
fn advance(alloc: Global, handle: &mut Handle, moment: u64) -> CAnswer
    ensures { (result, board_of handle.new) ≡ time_to moment (board_of handle.old) }
{
    let Some(mut held) = handle.take(alloc) else {
        return nothing(NO_BOARD);
    };
    let answer = pass(&mut held.board, moment);
    handle.put(held);
    answer
}

// Lets time pass up to `moment`, unless it is before the board's.
#[tactic(auto, unfolding(dev_board::specs::Step::names_wire))]
fn pass(board: &mut AnyBoard, moment: u64) -> CAnswer
    ensures { (result, Some board.new) ≡ time_to moment (Some board.old) }
{
    let now = board.now();
    if moment < now {
        return nothing(PAST);
    }
    let answer = board.event(Event::Wait { ns: moment - now });
    answered(answer.value, answer.int, answer.sent.as_slice())
}

// Applies `event` at `moment`, unless it is before the board's.
fn act_at(board: &mut AnyBoard, moment: u64, event: Event) -> CAnswer
    requires { MayAct event }
    ensures { (result, Some board.new) ≡ event_at moment event (Some board.old) }
{
    let now = board.now();
    if moment == now {
        let (value, int) = act(board, event);
        return brief(value, int);
    }
    if moment < now {
        return nothing(PAST);
    }
    act_later(board, moment - now, event)
}

// Applies `event` now, which sends no byte, and returns the value and the interrupt output.
#[inline(always)]
fn act(board: &mut AnyBoard, event: Event) -> (Option<u8>, bool)
    requires { MayAct event }
    ensures { (said result.0 result.1 [], Some board.new) ≡ acts event board.old }
{
    let answer = board.event(event);
    (answer.value, answer.int)
}

// Lets `ns` nanoseconds pass, and then applies `event`, which sends no byte.
#[tactic(auto, unfolding(dev_board::specs::Step::names_wire))]
fn act_later(board: &mut AnyBoard, ns: u64, event: Event) -> CAnswer
    requires { MayAct event }
    ensures { (result, Some board.new) ≡ acts_after ns event board.old }
{
    let passed = board.event(Event::Wait { ns });
    let answer = board.event(event);
    answered(answer.value, answer.int, passed.sent.as_slice())
}
