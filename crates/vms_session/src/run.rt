// Events on a board.
ghost use Rattle.std.specs.Prelude.{◌≡◌, OnErr, OnOk};
ghost use Rattle.dev_board.specs.Laws.{AreEvents, IsEvent};
ghost use Rattle.vms_board_streams.specs.Streams.{after_events};
ghost use Rattle.vms_io.specs.Told.{outlet};
ghost use Rattle.vms_io.specs.Writing.{Wrote};
ghost use Rattle.vms_script.specs.Trace.{trace_line};
ghost use Rattle.vms_session.specs.Events.{StopsAmong, trace_from};

use dev_board::Event;
use vms_board::{Machine, MachineBoard};
use vms_io::{Sink, WriteFault};
use vms_script::print_answer;

/// Runs `events` on the `devices` of a board, one after the other.
///
/// # Requires
///
/// The devices are sound, and the numbers of each event are in their ranges.
pub fn run_events<M: Machine>(devices: &mut M, events: &[Event])
    requires sound { M.is_sound devices.old }
    requires events { AreEvents events.now }
    ensures state { devices.new ≡ after_events M.family events.now devices.old }
    ensures number { M.family.number devices.new ≡ M.family.number devices.old }
    ensures sound { M.is_sound devices.new }
{
    for event in events {
        devices.event(*event);
    }
}

/// Runs `events` on `board`, one after the other, and appends the line of each answer to `out`.
///
/// # Requires
///
/// The numbers of each event are in their ranges.
///
/// # Errors
///
/// [`WriteFault`] if `out` fails. A prefix of the trace has been written then, and `board` is as
/// after some first events.
pub fn trace<M: Machine, K: Sink>(
    board: &mut MachineBoard<M>,
    events: &[Event],
    out: &mut K,
) -> Result<(), WriteFault>
    requires { AreEvents events.now }
    ensures wrote { let text = trace_from M.family events.now board.old.state in
        Wrote (outlet K.Sink out.old) (outlet K.Sink out.new) text result }
    ensures state { let after = after_events M.family events.now board.old.state in
        OnOk result (board.new.state ≡ after) }
    ensures stopped { OnErr result
        (StopsAmong M.family events.now board.old.state board.new.state) }
    ensures number { M.family.number board.new.state ≡ M.family.number board.old.state }
    ensures taken { board.new.taken ≡ board.old.taken }
{
    for event in events {
        trace_event(board, *event, out)?;
    }
    Ok(())
}

// Runs an event on a board, and appends the line of its answer.
#[tactic(auto, using(dev_board::proofs::WireLaws::names))]
fn trace_event<M: Machine, K: Sink>(
    board: &mut MachineBoard<M>,
    event: Event,
    out: &mut K,
) -> Result<(), WriteFault>
    requires { IsEvent event }
    ensures wrote { let text = trace_line (M.family.step event board.old.state).0 in
        Wrote (outlet K.Sink out.old) (outlet K.Sink out.new) text result }
    ensures state { board.new.state ≡ (M.family.step event board.old.state).1 }
    ensures taken { board.new.taken ≡ board.old.taken }
{
    print_answer(&board.event(event), out)
}
