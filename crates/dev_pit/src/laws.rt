// Laws of the definitions, each stated by a function without a body.
ghost use Rattle.dev_pit.specs.Laws.{TicksGoOn, SecondsHaveTicks, EdgeInParts, EdgeTurnsHigh, CountingGoesOn, TerminalCountStays, StatusTells, LatchStays, ReadBackByLevel, SoundStays, StepsKeepLevel, SoundMeetsRules, SavedAreCells, SavedIsRestored, RestoredIsSound};
ghost use Rattle.dev_pit.specs.SheetNumbers.{NumbersAre};

/// States that ticks never go back, and that each second has 1,193,182 of them.
#[tactic(auto, using(crate::proofs::EdgeLaws::ticks_go_on, crate::proofs::EdgeLaws::seconds_have_ticks))]
pub fn ticks_law()
    ensures order { TicksGoOn }
    ensures rate { SecondsHaveTicks }
{}

/// States that in every mode `Pit::edge` finds an edge in a span exactly if it finds one in one of
/// its two parts.
#[tactic(auto, using(crate::proofs::EdgeLaws::edge_in_parts))]
pub fn edge_parts_law()
    ensures { EdgeInParts }
{}

/// States that in every mode `Pit::edge` finds an edge exactly if OUT turns high at a tick of the
/// span.
///
/// OUT is low at the tick before and high at that tick.
#[tactic(auto, using(crate::proofs::EdgeLaws::edge_turns_high))]
pub fn edge_turns_high_law()
    ensures { EdgeTurnsHigh }
{}

/// States that a call of `Pit` that neither programs nor loads a counter leaves it counting as
/// before.
#[tactic(auto, using(crate::proofs::CallLaws::counting_goes_on))]
pub fn counting_law()
    ensures { CountingGoesOn }
{}

/// States that in mode 0 `Pit::out`, once high, stays high until the counter is loaded or
/// programmed.
#[tactic(auto, using(crate::proofs::CallLaws::terminal_count_stays))]
pub fn terminal_count_law()
    ensures { TerminalCountStays }
{}

/// States what the status byte holds ("Status Byte" in the data sheet of the 8254).
///
/// OUT is in bit 7, RW in bits 5 and 4, the mode in bits 3 to 1, BCD in bit 0. Bit 6 is clear: on
/// the chip it is set while a written count isn't in force yet, and here a count is in force at
/// once.
#[tactic(auto, using(crate::proofs::LatchLaws::status_tells))]
pub fn status_law()
    ensures { StatusTells }
{}

/// States that a latched count stays until its last byte is read or the counter is programmed.
///
/// Time doesn't change what `Pit::read` returns of it.
#[tactic(auto, using(crate::proofs::LatchLaws::latch_stays))]
pub fn latch_law()
    ensures { LatchStays }
{}

/// States what the read-back command, a control word of `Pit::write`, does by level ("Read-Back
/// Command").
///
/// At level 1, on an 8253, it does nothing, and no status may be latched. From level 2 on, on an
/// 8254, it latches the count, the status or both of each chosen counter.
#[tactic(auto, using(crate::proofs::LatchLaws::read_back_by_level))]
pub fn read_back_law()
    ensures { ReadBackByLevel }
{}

/// States that `Pit::new` returns a sound chip, and that time and every call keep a chip sound.
#[tactic(auto, using(crate::proofs::SoundLaws::sound_stays))]
pub fn sound_law()
    ensures { SoundStays }
{}

/// States that no call of `Pit` changes the level.
#[tactic(auto, using(crate::proofs::SoundLaws::steps_keep_level))]
pub fn level_law()
    ensures { StepsKeepLevel }
{}

/// States that a chip is sound exactly if its cells in the newest set are normal and break no rule.
///
/// The rules are those of `Pit::of_cells`.
#[tactic(auto, using(crate::proofs::SavedLaws::sound_meets_rules))]
pub fn rules_law()
    ensures { SoundMeetsRules }
{}

/// States that `Pit::cells` of a sound chip returns as many cells as the set has.
///
/// Each cell is in its kind's range, and an absent one is at its default.
#[tactic(auto, using(crate::proofs::SavedLaws::saved_are_cells))]
pub fn cells_law()
    ensures { SavedAreCells }
{}

/// States that the hooks `save` and `load` give back an equal chip, for any set from its level on.
///
/// The saved chip is sound, its cells are carried to the newest set, and the restore is at its level
/// and moment.
#[tactic(auto, using(crate::proofs::SavedLaws::saved_is_restored))]
pub fn saved_law()
    ensures { SavedIsRestored }
{}

/// States that a chip that the hook `load` returns is sound and has the level of the restore.
#[tactic(auto, using(crate::proofs::SavedLaws::restored_is_sound))]
pub fn restored_law()
    ensures { RestoredIsSound }
{}

/// States the chip's numbers: 1,193,182 ticks a second, and how many cells a chip and a counter
/// have.
///
/// The read-back command exists from level 2 on, and cells for latched statuses from set 2 on.
#[tactic(auto, using(crate::proofs::LatchLaws::numbers_are))]
pub fn numbers_law()
    ensures { NumbersAre }
{}
