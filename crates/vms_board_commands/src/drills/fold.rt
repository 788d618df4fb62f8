// A drill.
ghost use Rattle.std.specs.Prelude.{◌≡◌, IfOk};
ghost use Rattle.dev_base.specs.Levels.{IsLevel};
ghost use Rattle.vms_board_commands.specs.Drills.{drill_begun, drilled_on, summary_of};
ghost use Rattle.vms_board_commands.specs.DrillViews.{summary_view};

use super::progress::Progress;
use std::alloc::Global;
use vms_board::Board;
use vms_io::NoMemory;

/// The summary of a drill.
#[derive(Clone, Copy, Debug, PartialEq, Eq)]
pub struct Summary {
    /// The number of events.
    pub events: u32,
    /// The number of bytes that the serial port sent.
    pub sent: u64,
    /// The number of events after which the interrupt output was high.
    pub raised: u64,
    /// The number of times that the board was saved and restored.
    pub saves: u32,
    /// The number of bytes of all streams together.
    pub bytes: u64,
}

/// A drill's summary, and its board after the last event and save.
#[derive(Drop)]
pub struct Drilled {
    /// The summary.
    pub summary: Summary,
    /// The board.
    pub board: Board,
}

/// Runs the first `count` events of `seed` on a board of level `level` at power on.
///
/// After every thousandth event the board is saved and restored from its own stream.
///
/// # Requires
///
/// `level` is a board's level, 1 to 4.
///
/// # Errors
///
/// [`NoMemory`] if memory runs out.
pub fn drill(alloc: Global, level: u8, seed: u64, count: u32) -> Result<Drilled, NoMemory>
    requires { IsLevel level }
    ensures summary { let drill = drilled_on count (drill_begun level seed) in
        IfOk result (λ d. summary_view d.summary ≡ summary_of drill) }
    ensures board { let drill = drilled_on count (drill_begun level seed) in
        IfOk result (λ d. d.board.state ≡ drill.progress.board) }
    ensures taken { let drill = drilled_on count (drill_begun level seed) in
        IfOk result (λ d. d.board.taken ≡ drill.taken) }
{
    let mut progress = Progress::begin(alloc, level, seed)?;
    for _ in 0..count {
        progress.step(alloc)?;
    }
    Ok(progress.end())
}
