// Laws of the definitions that the contracts of the pair cite. Each function does nothing; its
// clause is the law.
ghost use Rattle.dev_pic.specs.Laws.{WinnerIsLeastRequest, MaskedNeverWins, LevelInputsAre, ServedBlocksLower, EoiEndsHighest, InitializesByWords, AckWithoutWinner, TakesWinner, PollsOnce, NestsSpecially, RotatesAtOnce, TakesLinesOver, LinesAreTaken, LinesAreKept, StepsKeepRegisters, StepsKeepLevel, SoundMeetsRules, SavedAreCells, SavedIsRestored, FaultsAreTold, RestoredIsSound};
ghost use Rattle.dev_pic.specs.SheetNumbers.{NumbersAre};

/// States which input wins: the first of `requests`, if it comes before every input of `served`.
///
/// The order is that of priority, and no other input is a winner ("Interrupt Request Register (IRR)
/// and In-Service Register (ISR)", "Priority Resolver").
#[tactic(auto, using(crate::proofs::WinnerLaws::winner_is_least_request))]
pub fn winner_law()
    ensures { WinnerIsLeastRequest }
{}

/// States that a request that `imr` masks never wins ("Interrupt Mask Register (IMR)").
#[tactic(auto, using(crate::proofs::SheetLaws::masked_never_wins))]
pub fn mask_law()
    ensures { MaskedNeverWins }
{}

/// States that the level inputs are those whose bit is set in `elcr`, or all if `ltim` is set.
#[tactic(auto, using(crate::proofs::BitLaws::level_inputs_are))]
pub fn level_inputs_law()
    ensures { LevelInputsAre }
{}

/// States what the initialization words set ("Initialization Command Words (ICWs)").
///
/// They set `base` and the modes. Nothing is then in service or masked, and only level inputs are
/// still requested.
#[tactic(auto, using(crate::proofs::SheetLaws::initializes_by_words))]
pub fn initialization_law()
    ensures { InitializesByWords }
{}

/// States that in fully nested mode an input in `isr` blocks itself and each input of lower
/// priority.
///
/// This is the mode without `nested` and `special_mask` ("Fully Nested Mode").
#[tactic(auto, using(crate::proofs::SheetLaws::served_blocks_lower))]
pub fn nesting_law()
    ensures { ServedBlocksLower }
{}

/// States that a non-specific EOI ends the service of highest priority.
///
/// A rotating one also makes its input `lowest` ("End of Interrupt (EOI)", "Automatic Rotation").
#[tactic(auto, using(crate::proofs::SheetLaws::eoi_ends_highest))]
pub fn eoi_law()
    ensures { EoiEndsHighest }
{}

/// States that `PicPair::ack` without a winner returns the vector of input 7 and changes nothing.
///
/// The same holds for the slave if its output is the master's winner ("Edge and Level Triggered
/// Modes", on the default IR7).
#[tactic(auto, using(crate::proofs::SheetLaws::ack_without_winner))]
pub fn default_law()
    ensures { AckWithoutWinner }
{}

/// States that a taken edge input loses its request in `irr`, and a level input keeps it.
///
/// Without automatic EOI the input is then in `isr`.
#[tactic(auto, using(crate::proofs::SheetLaws::takes_winner))]
pub fn service_law()
    ensures { TakesWinner }
{}

/// States that a poll returns 0x80 plus the winner, which is taken, or 0 ("Poll Command").
///
/// The poll is the first `PicPair::read` of either port after the word that requests it.
#[tactic(auto, using(crate::proofs::SheetLaws::polls_once))]
pub fn poll_law()
    ensures { PollsOnce }
{}

/// States that with `nested` the slave's input blocks no request of the master.
///
/// Every other input blocks as usual ("The Special Fully Nested Mode"). On the chip the slave's
/// input still blocks inputs of lower priority.
#[tactic(auto, using(crate::proofs::SheetLaws::nests_specially))]
pub fn special_nesting_law()
    ensures { NestsSpecially }
{}

/// States that with `rotate` in automatic EOI a taken input gets the lowest priority.
///
/// Without it priorities stay ("Automatic Rotation").
#[tactic(auto, using(crate::proofs::SheetLaws::rotates_at_once))]
pub fn rotation_law()
    ensures { RotatesAtOnce }
{}

/// States which inputs are requested after `PicPair::settle` ("Edge and Level Triggered Modes").
#[tactic(auto, using(crate::proofs::SheetLaws::takes_lines_over))]
pub fn lines_law()
    ensures { TakesLinesOver }
{}

/// States which lines `PicPair::lines` returns after `PicPair::settle`.
#[tactic(auto, using(crate::proofs::LineLaws::lines_are_taken))]
pub fn remembered_law()
    ensures { LinesAreTaken }
{}

/// States that `read`, `write` and `ack` keep the lines that `PicPair::lines` returns.
///
/// The exception is an acknowledge of the slave, which makes the cascade input's line low.
#[tactic(auto, using(crate::proofs::LineLaws::lines_are_kept))]
pub fn kept_lines_law()
    ensures { LinesAreKept }
{}

/// States that `PicPair::new` returns a sound pair, and that each step keeps the registers in
/// range.
///
/// After `PicPair::settle` the pair is sound.
#[tactic(auto, using(crate::proofs::StepLaws::steps_keep_registers))]
pub fn steps_law()
    ensures { StepsKeepRegisters }
{}

/// States that no step of `PicPair` changes the level.
#[tactic(auto, using(crate::proofs::StepLaws::steps_keep_level))]
pub fn level_law()
    ensures { StepsKeepLevel }
{}

/// States that a chip is sound exactly if its cells in the newest set fit their kinds and break no
/// rule.
///
/// The rules are those of `PicPair::of_cells`.
#[tactic(auto, using(crate::proofs::SavedLaws::sound_meets_rules))]
pub fn rules_law()
    ensures { SoundMeetsRules }
{}

/// States that `PicPair::cells` of a sound pair returns cells of the set, each in its kind's range.
///
/// The cell of `ltim` is at its default if its subsection isn't needed. Each chip's cells can be
/// found in those of the pair.
#[tactic(auto, using(crate::proofs::SavedLaws::saved_are_cells))]
pub fn cells_law()
    ensures { SavedAreCells }
{}

/// States that the hooks `save` and `load` give back an equal pair, for any set from its level on.
///
/// The saved pair is sound, its cells are carried to the newest set, and the restore is at its level.
#[tactic(auto, using(crate::proofs::SavedLaws::saved_is_restored))]
pub fn saved_law()
    ensures { SavedIsRestored }
{}

/// States that `ChipFault::of_rule` finds the chip and its rule from the number that the hooks give
/// it.
#[tactic(auto, using(crate::proofs::SavedLaws::faults_are_told))]
pub fn fault_law()
    ensures { FaultsAreTold }
{}

/// States that a pair that the hook `load` returns is sound and has the level of the restore.
#[tactic(auto, using(crate::proofs::SavedLaws::restored_is_sound))]
pub fn restored_law()
    ensures { RestoredIsSound }
{}

/// States the first levels with edge/level registers, 2, and with the level mode of ICW1, 4, and
/// that a chip has 17 cells in the newest set.
#[tactic(auto, using(crate::proofs::SheetLaws::numbers_are))]
pub fn numbers_law()
    ensures { NumbersAre }
{}
