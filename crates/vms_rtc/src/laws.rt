// Laws of the chip. Each is a clause of a function with an empty body.
ghost use Rattle.vms_rtc.specs.Laws.{NumbersAre, PartsAreWhole, FlagIsSetAtMultiples, ReadsClearFlag, FlagsAreKept, VersionStays};
ghost use Rattle.vms_rtc.specs.Laws.{CallsKeepSound, SavedAreCells, SavedIsRestored, SoundMeetsRules, RestoredIsSound};

/// States the numbers of the MC146818 data sheet and of the PC.
///
/// Port 0x70 reads and writes the index, and port 0x71 the register that it selects. Bit 6 of
/// register 0x0b enables the interrupt line, and each second has 32,768 ticks. Registers A to D are
/// 0x0a to 0x0d of 64, and the NMI mask exists from version 2 on.
#[tactic(auto, using(crate::proofs::StepLaws::numbers_are))]
pub fn numbers_law()
    ensures { NumbersAre }
{}

/// States that `passed` in two parts has the same effect as `passed` at once.
#[tactic(auto, using(crate::proofs::StepLaws::parts_are_whole))]
pub fn parts_law()
    ensures { PartsAreWhole }
{}

/// States when `passed` sets the periodic interrupt flag.
///
/// It does so exactly if a multiple of the period is after the ticks at its beginning and not after
/// those at its end. No span clears the flag.
#[tactic(auto, using(crate::proofs::StepLaws::set_at_multiples))]
pub fn multiple_law()
    ensures { FlagIsSetAtMultiples }
{}

/// States that a read of register C clears the periodic interrupt flag and changes nothing else.
///
/// A read of any other register changes nothing.
#[tactic(auto, using(crate::proofs::StepLaws::reads_clear))]
pub fn flags_law()
    ensures { ReadsClearFlag }
{}

/// States that writes to registers C and D don't change them.
#[tactic(auto, using(crate::proofs::StepLaws::flags_are_kept))]
pub fn kept_law()
    ensures { FlagsAreKept }
{}

/// States that `read`, `write` and `passed` don't change the version.
#[tactic(auto, using(crate::proofs::StepLaws::version_stays))]
pub fn level_law()
    ensures { VersionStays }
{}

/// States that a new [`Rtc`](crate::Rtc) is sound and that each call keeps it so.
#[tactic(auto, using(crate::proofs::StepLaws::calls_keep_sound))]
pub fn sound_law()
    ensures { CallsKeepSound }
{}

/// States that the `cells` of a sound chip under a set are cells of that set.
#[tactic(auto, using(crate::proofs::SavedLaws::saved_are_cells))]
pub fn cells_law()
    ensures { SavedAreCells }
{}

/// States that a sound chip that is saved by `cells` is restored by `of_cells` as it was.
///
/// This holds for each clock set from its version on, after its cells are carried to the newest
/// set.
#[tactic(auto, using(crate::proofs::SavedLaws::saved_is_restored))]
pub fn saved_law()
    ensures { SavedIsRestored }
{}

/// States that the three rules of `of_cells` describe exactly the sound chips.
///
/// Of the chips that a stream can describe, those are sound for which no rule fails for what the
/// newest clock set saves.
#[tactic(auto, using(crate::proofs::SavedLaws::sound_meets_rules))]
pub fn rules_law()
    ensures { SoundMeetsRules }
{}

/// States that a chip that `of_cells` restores is sound and has the version of the restore.
#[tactic(auto, using(crate::proofs::SavedLaws::restored_is_sound))]
pub fn restored_law()
    ensures { RestoredIsSound }
{}
