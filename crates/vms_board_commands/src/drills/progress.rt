// A drill in progress.
ghost use Rattle.std.specs.Prelude.{◌≡◌, ◌+◌, ◌^◌, ◌<◌, IfOk, OnOk};
ghost use Rattle.dev_base.specs.Levels.{IsLevel};
ghost use Rattle.vms_board_commands.specs.Drills.{drill_begun, summary_of, with_drill_event};
ghost use Rattle.vms_board_commands.specs.DrillViews.{progress_view, summary_view, IsInProgress};

use super::events::Events;
use super::fold::{Drilled, Summary};
use super::round::come_back;
use super::schedule::{BETWEEN_SAVES, is_save_due};
use super::tally::Tally;
use std::alloc::Global;
use vms_board::{Board, Devices};
use vms_board_streams::KeptSets;
use vms_io::NoMemory;

/// A drill after some of its events.
#[derive(Drop)]
pub(crate) struct Progress {
    board: Board,
    /// The sets under which its streams are written.
    sets: KeptSets,
    events: Events,
    tally: Tally,
    /// The number of events so far.
    done: u32,
    /// The number of bytes of all streams so far.
    bytes: u64,
}

impl Progress {
    /// Returns a drill before its first event.
    ///
    /// # Errors
    ///
    /// [`NoMemory`] if memory runs out.
    pub(crate) fn begin(alloc: Global, level: u8, seed: u64) -> Result<Progress, NoMemory>
        requires { IsLevel level }
        ensures view { IfOk result (λ progress. progress_view progress ≡ drill_begun level seed) }
        ensures going { IfOk result IsInProgress }
    {
        Ok(Progress {
            board: Board::new(alloc, level)?,
            sets: KeptSets::new::<Devices>(alloc),
            events: Events::new(seed),
            tally: Tally::new(),
            done: 0,
            bytes: 0,
        })
    }

    /// Runs the next event. After every thousandth one the board is restored from its own stream.
    ///
    /// # Errors
    ///
    /// [`NoMemory`] if memory runs out.
    pub(crate) fn step(&mut self, alloc: Global) -> Result<(), NoMemory>
        requires going { IsInProgress self.old }
        requires room { self.old.done + 1 < 2 ^ 32 }
        ensures view { OnOk result
            (progress_view self.new ≡ with_drill_event (progress_view self.old)) }
        ensures going { OnOk result (IsInProgress self.new) }
    {
        let answer = self.board.event(self.events.next_event());
        self.tally.count(&answer);
        self.done += 1;
        if is_save_due(self.done) {
            let saves = self.done / BETWEEN_SAVES - 1;
            self.bytes += come_back(alloc, &mut self.board, &mut self.sets, saves)?;
        }
        Ok(())
    }

    /// Returns the summary, and the board.
    pub(crate) fn end(self) -> Drilled
        ensures summary { summary_view result.summary ≡ summary_of (progress_view self) }
        ensures board { result.board ≡ self.board }
    {
        let summary = Summary {
            events: self.done,
            sent: self.tally.sent,
            raised: self.tally.raised,
            saves: self.done / BETWEEN_SAVES,
            bytes: self.bytes,
        };
        Drilled {
            summary,
            board: self.board,
        }
    }
}
