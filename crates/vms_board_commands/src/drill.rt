// The command `drill`: events that a seed selects, with saves between them.
ghost use Rattle.std.specs.Prelude.{◌≡◌, IfOk, string_bytes};
ghost use Rattle.dev_base.specs.Levels.{IsLevel};
ghost use Rattle.vms_board_commands.specs.DrillViews.{summary_view};
ghost use Rattle.vms_io.specs.Told.{Stock, outlet};
ghost use Rattle.vms_commands.specs.Endings.{ending_of};
ghost use Rattle.vms_board_commands.specs.Drill.{drill_line, drill_task, drill_text, events_text, saves_text, summary_line};
ghost use Rattle.vms_board_commands.specs.Runs.{RunsAside};

use crate::drills::{Summary, drill};
use std::alloc::Global;
use vms_board::machine_name;
use vms_commands::{Ending, write_text};
use vms_io::{NoMemory, Sink};

/// Writes the result of `count` events that `seed` selects to `out`, as one line.
///
/// They are applied to a board of the level `level` at power on, which is saved and restored after
/// every thousand of them.
///
/// # Errors
///
/// - [`Ending::WriteFault`]: `out` failed. A prefix of the line has been written.
/// - [`Ending::NoMemory`]: out of memory. Nothing has been written.
///
/// # Requires
///
/// `level` is from 1 to 4.
#[inline(never)]
pub fn drill_board<O: Sink>(
    alloc: Global,
    level: u8,
    seed: u64,
    count: u32,
    out: &mut O,
) -> Result<(), Ending>
    requires { IsLevel level }
    ensures { (shelf : Stock) → RunsAside (drill_task level seed count)
        (outlet O.Sink out.old) (outlet O.Sink out.new) shelf shelf (ending_of result) }
{
    let line = drilled_line(alloc, level, seed, count)?;
    write_text(line.as_bytes(), out)
}

// Returns the line of a drill. Fails only if memory runs out.
fn drilled_line(alloc: Global, level: u8, seed: u64, count: u32) -> Result<String, NoMemory>
    requires { IsLevel level }
    ensures { IfOk result (λ line. string_bytes line ≡ drill_line level seed count) }
{
    let drilled = drill(alloc, level, seed, count)?;
    summary_line(alloc, level, seed, &drilled.summary)
}

// Returns the line of a drill's summary. Fails only if memory runs out.
fn summary_line(alloc: Global, level: u8, seed: u64, summary: &Summary) -> Result<String, NoMemory>
    requires { IsLevel level }
    ensures { let s = summary_view summary.now in
        IfOk result (λ line. string_bytes line ≡ summary_line level seed s) }
{
    let drill = drill_text(alloc, level, seed)?;
    let events = events_text(alloc, summary.events, summary.sent, summary.raised)?;
    let saves = saves_text(alloc, summary.saves, summary.bytes)?;
    Ok(format!(in alloc; "{drill}{events}{saves}")?)
}

#[tactic(auto, unfolding(crate::specs::Drill::drill_text))]
fn drill_text(alloc: Global, level: u8, seed: u64) -> Result<String, NoMemory>
    requires { IsLevel level }
    ensures { IfOk result (λ text. string_bytes text ≡ drill_text level seed) }
{
    let machine = machine_name(level);
    Ok(format!(in alloc; "{machine} seed {seed}")?)
}

#[tactic(auto, unfolding(crate::specs::Drill::events_text))]
fn events_text(alloc: Global, events: u32, sent: u64, raised: u64) -> Result<String, NoMemory>
    ensures { IfOk result (λ text. string_bytes text ≡ events_text events sent raised) }
{
    Ok(format!(in alloc; " events {events} sent {sent} raised {raised}")?)
}

#[tactic(auto, unfolding(crate::specs::Drill::saves_text))]
fn saves_text(alloc: Global, saves: u32, bytes: u64) -> Result<String, NoMemory>
    ensures { IfOk result (λ text. string_bytes text ≡ saves_text saves bytes) }
{
    Ok(format!(in alloc; " saves {saves} bytes {bytes}\n")?)
}
