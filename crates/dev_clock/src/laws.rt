// Laws of the definitions, each stated by a function without a body.
ghost use Rattle.dev_clock.specs.Laws.{SoundStays, ClockGoesOn, AnswersTellInt, AlikeStays};
ghost use Rattle.dev_clock.specs.SavedLaws.{SavedAreCells, SavedComesBack, SavedGoesOn, RestoredIsSound, SoundMeetsRules};
ghost use Rattle.dev_clock.specs.SheetNumbers.{NumbersAre};

/// States that `ClockDevices::new` returns sound devices, and that events keep devices sound.
///
/// This holds for each event and for each list of events.
#[tactic(auto, using(crate::proofs::StepLaws::sound_stays_on))]
pub fn sound_law()
    ensures { SoundStays }
{}

/// States that only `Event::Wait` changes the moment, by its nanoseconds, and not beyond the last.
///
/// No event changes the version.
#[tactic(auto, using(crate::proofs::StepLaws::clock_goes_on))]
pub fn clock_law()
    ensures { ClockGoesOn }
{}

/// States that `Answer::int` is the interrupt output after the event.
#[tactic(auto, using(crate::proofs::StepLaws::answers_tell_int))]
pub fn int_law()
    ensures { AnswersTellInt }
{}

/// States that `ClockDevices` that are alike give equal answers to each event and each list of
/// events.
///
/// They are alike afterwards, too.
#[tactic(auto, using(crate::proofs::StepLaws::alike_stays))]
pub fn alike_law()
    ensures { AlikeStays }
{}

/// States that `ClockDevices::cells` of sound devices returns normal cells of the clock set.
///
/// This is so for any clock set from their version to the newest.
#[tactic(auto, using(crate::proofs::SavedLaws::saved_are_cells))]
pub fn cells_law()
    ensures { SavedAreCells }
{}

/// States that the cells of sound devices, carried to the newest clock set, restore devices like
/// them.
///
/// This is so for the cells of `ClockDevices::cells` in any clock set from their version to the
/// newest.
#[tactic(auto, using(crate::proofs::SavedLaws::saved_comes_back))]
pub fn saved_law()
    ensures { SavedComesBack }
{}

/// States that the devices that `ClockDevices::of_cells` restores give the saved devices' answers.
///
/// This holds for every list of events.
#[tactic(auto, using(crate::proofs::SavedLaws::saved_goes_on))]
pub fn continuation_law()
    ensures { SavedGoesOn }
{}

/// States that devices that `ClockDevices::of_cells` returns are sound and have the version of the
/// restore.
#[tactic(auto, using(crate::proofs::SavedLaws::restored_is_sound))]
pub fn restored_law()
    ensures { RestoredIsSound }
{}

/// States that devices that a stream can describe are sound exactly if `ClockDevices::of_cells`
/// accepts them.
///
/// The cells are those of the newest clock set. They are accepted if no rule fails and the lines
/// agree.
#[tactic(auto, using(crate::proofs::SavedLaws::sound_meets_rules))]
pub fn rules_law()
    ensures { SoundMeetsRules }
{}

/// States the numbers of the clock board: the input that the chip drives, and the chip's place and
/// rule.
///
/// The place is that among the devices of a set. The rule is the one on that input. A `Misfit`
/// names both.
#[tactic(auto, using(crate::proofs::StepLaws::numbers_are))]
pub fn numbers_law()
    ensures { NumbersAre }
{}
