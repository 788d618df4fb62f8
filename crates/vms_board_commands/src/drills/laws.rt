// Laws of drills. Each is the contract of a function with an empty body.
ghost use Rattle.vms_board_commands.specs.DrillEventLaws.{EventsAreGood, SavesLeaveCounts};
ghost use Rattle.vms_board_commands.specs.DrillLaws.{ProgressIsSame, SizesAreSmall, NumbersAre};

/// States that a drill's progress doesn't depend on the sizes of its streams.
///
/// Its events, bytes sent and interrupts are those of the same events without any save.
#[tactic(auto, using(crate::proofs::DrillLaws::progress_is_same))]
pub fn progress_law()
    ensures { ProgressIsSame }
{}

/// States that the streams of a [`drill`](crate::drills::drill) have together at most 65,536 bytes
/// for each of its events.
#[tactic(auto, using(crate::proofs::DrillLaws::sizes_are_small))]
pub fn size_law()
    ensures { SizesAreSmall }
{}

/// States that the events of a drill are valid: their bytes are bytes, and their wires are wires.
#[tactic(auto, using(crate::proofs::DrillLaws::events_are_good))]
pub fn events_law()
    ensures { EventsAreGood }
{}

/// States that a drill's counts are those of the same events without any save, and that its board
/// is like the board after those.
#[tactic(auto, using(crate::proofs::DrillLaws::saves_leave_counts))]
pub fn saves_law()
    ensures { SavesLeaveCounts }
{}

/// States the numbers of a drill: 100,000 nanoseconds of a wait for each unit of its byte, 1,000
/// events from one save to the next, and less than 65,536 bytes of a stream.
#[tactic(auto, using(crate::proofs::DrillLaws::numbers_are))]
pub fn numbers_law()
    ensures { NumbersAre }
{}
