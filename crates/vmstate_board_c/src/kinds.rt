// The boards of each kind, and their calls.
ghost use Rattle.std.specs.Prelude.{◌≡◌, ◌-◌, ◌<◌, ◌≤◌, [], IsTrue, IfOk, IfSome, MatchOption, Some, None, true, false};
ghost use Rattle.dev_board.specs.Touch.{saying};
ghost use Rattle.dev_board.specs.declared.event.Event.TheVariants.{Wait};
ghost use Rattle.dev_board.specs.Step.{names_wire};
ghost use Rattle.vmstate_board_c.specs.Answers.{MayAct, Reaches, event_at, said, time_to};
ghost use Rattle.vmstate_board_c.specs.declared.kinds.AnyBoard.TheVariants.{Isa};
ghost use Rattle.vmstate_board_c.specs.Streams.{RestoredTo, SavedIf, may_save, stream_of};
ghost use Rattle.vmstate_board_c.specs.Kinds.{IsDueAt, character_of, has_port_of, int_of, is_made, level_of, now_of, output_of, power_on_of, room_of, step_of};

use crate::answer::CNumber;
use crate::stream::{CRestored, restore, save};
use dev_base::NEWEST;
use dev_board::{Answer, Event};
use std::alloc::Global;
use vms_board::{Board, ClockBoard, NoMemory};
use vms_rtc::NEWEST_CLOCK;

/// A board of one of the kinds.
#[derive(Drop)]
pub enum AnyBoard {
    /// A board `isa-1` to the newest.
    Isa(Board),
    /// A board `clk-1` or `clk-2`.
    Clock(ClockBoard),
}

// Makes the same call on a board of any kind.
macro_rules! of_any {
    ($any:expr, $board:ident => $call:expr) => {
        match $any {
            AnyBoard::Isa($board) => $call,
            AnyBoard::Clock($board) => $call,
        }
    };
}

/// The number of the kind of `isa-1` to the newest.
const ISA: u8 = 0;

/// The number of the kind of `clk-1` and `clk-2`.
const CLOCK: u8 = 1;

/// Reports whether boards of kind `kind` and level `level` exist.
pub(crate) fn is_kind(kind: u8, level: u8) -> bool
    ensures { result ≡ is_made kind level }
{
    match kind {
        ISA => 1 <= level && level <= NEWEST,
        CLOCK => 1 <= level && level <= NEWEST_CLOCK,
        _ => false,
    }
}

impl AnyBoard {
    /// Creates the board of kind `kind` and level `level` as it is at power on.
    ///
    /// # Errors
    ///
    /// [`NoMemory`] if memory runs out.
    pub(crate) fn new(alloc: Global, kind: u8, level: u8) -> Result<AnyBoard, NoMemory>
        requires { IsTrue (is_made kind level) }
        ensures { IfOk result (λ board. board ≡ power_on_of kind level) }
    {
        if kind == ISA {
            Ok(AnyBoard::Isa(Board::new(alloc, level)?))
        } else {
            Ok(AnyBoard::Clock(ClockBoard::new(alloc, level)?))
        }
    }

    /// Applies `event` and returns the answer.
    #[inline(always)]
    pub(crate) fn event(&mut self, event: Event) -> Answer
        requires { IsTrue (names_wire event) }
        ensures { (result, self.new) ≡ step_of event self.old }
    {
        of_any!(self, board => board.event(event))
    }

    /// Lets time pass up to `moment` and returns the interrupt output, if it can be told at once that
    /// no byte leaves. Otherwise nothing happens, and it returns `None`.
    #[inline(always)]
    pub(crate) fn quick_pass(&mut self, moment: u64) -> Option<bool>
        ensures { MatchOption result (self.new ≡ self.old)
            (λ int. (said None int [], Some self.new) ≡ time_to moment (Some self.old)) }
    {
        match self {
            AnyBoard::Isa(board) => passed(board, moment),
            AnyBoard::Clock(_) => None,
        }
    }

    /// Applies `event` at `moment` and returns the value and the interrupt output, if it can be told
    /// at once that no byte leaves. Otherwise nothing happens, and it returns `None`.
    #[inline(always)]
    pub(crate) fn quick_event(&mut self, moment: u64, event: Event) -> Option<(Option<u8>, bool)>
        requires { MayAct event }
        ensures { MatchOption result (self.new ≡ self.old)
            (λ done. (said done.0 done.1 [], Some self.new)
            ≡ event_at moment event (Some self.old)) }
    {
        match self {
            AnyBoard::Isa(board) => {
                if reach(board, moment) {
                    if let Some(done) = board.at_once(event) {
                        return Some(done);
                    }
                    let answer = board.event(event);
                    return Some((answer.value, answer.int));
                }
                None
            }
            AnyBoard::Clock(_) => None,
        }
    }

    /// Applies `event` at `moment` and returns the value and the interrupt output, if that is the
    /// board's moment and the event a frequent access that touches no interrupt line. Otherwise
    /// nothing happens, and it returns `None`.
    #[inline(always)]
    pub(crate) fn at_once(&mut self, moment: u64, event: Event) -> Option<(Option<u8>, bool)>
        requires { MayAct event }
        ensures { MatchOption result (self.new ≡ self.old)
            (λ done. (said done.0 done.1 [], Some self.new)
            ≡ event_at moment event (Some self.old)) }
    {
        match self {
            AnyBoard::Isa(board) => {
                if moment == board.now() {
                    return board.at_once(event);
                }
                None
            }
            AnyBoard::Clock(_) => None,
        }
    }

    /// Returns the present moment, in nanoseconds since power on.
    pub(crate) fn now(&self) -> u64
        ensures { result ≡ now_of self.now }
    {
        of_any!(self, board => board.now())
    }

    /// Returns the level, or the version of the clock chip.
    pub(crate) fn level(&self) -> u8
        ensures { result ≡ level_of self.now }
    {
        of_any!(self, board => board.number())
    }

    /// Reports whether the interrupt output is high.
    pub(crate) fn int(&self) -> bool
        ensures { result ≡ int_of self.now }
    {
        of_any!(self, board => board.int())
    }

    /// Reports whether OUT of counter `counter` is high at the present moment.
    pub(crate) fn output(&self, counter: u8) -> bool
        requires { counter < 3 }
        ensures { result ≡ output_of counter self.now }
    {
        of_any!(self, board => board.output(counter))
    }

    /// Reports whether a device uses the port `port`.
    pub(crate) fn has_port(&self, port: u16) -> bool
        ensures { result ≡ has_port_of port self.now }
    {
        of_any!(self, board => board.has_port(port))
    }

    /// Returns how many bytes may arrive on the serial line before one is lost.
    pub(crate) fn room(&self) -> u8
        ensures { result ≡ room_of self.now }
    {
        of_any!(self, board => board.room())
    }

    /// Returns the time of one character on the serial line, in nanoseconds.
    pub(crate) fn character(&self) -> u64
        ensures { result ≡ character_of self.now }
    {
        of_any!(self, board => board.character())
    }

    /// Returns the least wait, in nanoseconds, after which the interrupt output has changed or bytes
    /// have left the serial port, or `None` if no wait changes it and none lets bytes leave.
    pub(crate) fn due(&self) -> Option<u64>
        ensures { IsDueAt self.now result }
    {
        of_any!(self, board => board.due())
    }

    /// Writes the board's stream under set `set` to `room`, as the call of C does.
    pub(crate) fn save(&self, alloc: Global, set: u8, describe: bool, room: &mut [u8]) -> CNumber
        ensures { SavedIf (may_save set self.now) (stream_of set describe self.now)
            room.old room.new result }
    {
        of_any!(self, board => save(alloc, board, set, describe, room))
    }

    /// Restores the board from `stream`, as the call of C does.
    pub(crate) fn restore(&mut self, stream: &[u8]) -> CRestored
        ensures { RestoredTo stream.now self.old self.new result }
    {
        of_any!(self, board => restore(board, stream))
    }
}

// Lets time pass up to `moment` and returns the interrupt output, if no byte leaves. Otherwise
// nothing happens, and it returns `None`. It isn't inlined: with it an event would grow too large for
// `inline(always)`.
#[inline(never)]
fn passed(board: &mut Board, moment: u64) -> Option<bool>
    ensures passed { MatchOption result (board.new ≡ board.old)
        (λ int. (saying None int, Isa board.new)
        ≡ step_of (Wait (moment - now_of (Isa board.old))) (Isa board.old)) }
    ensures later { IfSome result (λ int. now_of (Isa board.old) ≤ moment) }
{
    let now = board.now();
    if moment < now {
        return None;
    }
    board.pass(moment - now)
}

// Lets time pass up to `moment`, if it isn't the board's, and returns `true` if no byte leaves.
// Otherwise nothing happens.
#[inline(always)]
fn reach(board: &mut Board, moment: u64) -> bool
    ensures reached { result ≡ true → Reaches moment (Isa board.old) (Isa board.new) }
    ensures stays { result ≡ false → board.new ≡ board.old }
{
    let now = board.now();
    if moment == now {
        return true;
    }
    passed(board, moment).is_some()
}
