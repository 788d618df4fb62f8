// The counts of a drill's answers.
ghost use Rattle.std.specs.Prelude.{◌≡◌, ◌+◌, ◌<◌, ◌≤◌, ◌^◌};
ghost use Rattle.vms_board_commands.specs.DrillProgress.{Counts, counted};
ghost use Rattle.vms_board_commands.specs.DrillTallies.{tally_view};
ghost use Rattle.dev_serial.specs.declared.transmitter.TheConstants.{MOST_SENT};

use dev_board::Answer;

/// Counts over the answers of a board to its events.
#[derive(Clone, Copy, Debug, PartialEq, Eq)]
pub struct Tally {
    /// The number of bytes that the serial port sent.
    pub sent: u64,
    /// The number of events after which the interrupt output was high.
    pub raised: u64,
}

impl Tally {
    /// Returns counts of zero.
    pub fn new() -> Tally
        ensures sent { result.sent ≡ 0 }
        ensures raised { result.raised ≡ 0 }
    {
        Tally { sent: 0, raised: 0 }
    }

    /// Counts `answer`.
    ///
    /// # Requires
    ///
    /// No count overflows.
    #[tactic(auto, unfolding(crate::specs::DrillProgress::counted))]
    pub fn count(&mut self, answer: &Answer)
        requires sent { self.old.sent + MOST_SENT < 2 ^ 64 }
        requires raised { self.old.raised + 1 < 2 ^ 64 }
        ensures counts { tally_view self.new ≡ counted answer.now (tally_view self.old) }
        ensures sent { self.new.sent ≤ self.old.sent + MOST_SENT }
        ensures raised { self.new.raised ≤ self.old.raised + 1 }
    {
        self.sent += answer.sent.len() as u64;
        if answer.int {
            self.raised += 1;
        }
    }
}
