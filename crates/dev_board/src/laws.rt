// Laws of the definitions, each stated by a function without a body.
ghost use Rattle.dev_board.specs.Laws.{PortsAre, SoundStays, WiresStay, ClockGoesOn, AnswersTellInt, AlikeStays, Likeness};
ghost use Rattle.dev_board.specs.SavedLaws.{SavedAreCells, SavedComesBack, SavedGoesOn, RestoredIsSound, SoundMeetsRules};
ghost use Rattle.dev_board.specs.SheetNumbers.{NumbersAre};

/// States which device a port reaches in an `Event::Read` or `Event::Write`.
///
/// The pair has its own ports, the three counters have 0x40 to 0x42, and 0x43 is their control
/// port. The serial port's registers are 0x3f8 to 0x3ff. No other port reaches a device.
#[tactic(auto, using(crate::proofs::PortLaws::ports_are))]
pub fn ports_law()
    ensures { PortsAre }
{}

/// States that `Devices::new` returns a sound board, and that events keep a board sound.
///
/// This holds for each event and for each list of events.
#[tactic(auto, using(crate::proofs::SoundLaws::sound_stays_on))]
pub fn sound_law()
    ensures { SoundStays }
{}

/// States that a wire is as the last `Event::Wire` that named it left it.
#[tactic(auto, using(crate::proofs::WireLaws::wires_stay))]
pub fn wires_law()
    ensures { WiresStay }
{}

/// States that only `Event::Wait` changes the moment, by its nanoseconds, and not beyond the last.
///
/// The last moment is that of 4,000,000,000 seconds. No event changes the level.
#[tactic(auto, using(crate::proofs::SoundLaws::clock_goes_on))]
pub fn clock_law()
    ensures { ClockGoesOn }
{}

/// States that `Answer::int` is the interrupt output after the event.
#[tactic(auto, using(crate::proofs::SoundLaws::answers_tell_int))]
pub fn int_law()
    ensures { AnswersTellInt }
{}

/// States that `Devices` that are alike give equal answers to each event and each list of events.
///
/// They are alike afterwards, too.
#[tactic(auto, using(crate::proofs::SavedLaws::alike_stays))]
pub fn alike_law()
    ensures { AlikeStays }
{}

/// States that being alike is an equivalence of `Devices`: reflexive, symmetric and transitive.
#[tactic(auto, using(crate::proofs::SavedLaws::likeness))]
pub fn likeness_law()
    ensures { Likeness }
{}

/// States that `Devices::cells` of a sound board returns normal cells of the set.
///
/// This is so for any set from the board's level to the newest.
#[tactic(auto, using(crate::proofs::SavedLaws::saved_are_cells))]
pub fn cells_law()
    ensures { SavedAreCells }
{}

/// States that the cells of a sound board, carried to the newest set, restore a board like it.
///
/// This is so for the cells of `Devices::cells` in any set from the board's level to the newest.
#[tactic(auto, using(crate::proofs::SavedLaws::saved_comes_back))]
pub fn saved_law()
    ensures { SavedComesBack }
{}

/// States that the board that `Devices::of_cells` restores gives the saved board's answers.
///
/// This holds for every list of events.
#[tactic(auto, using(crate::proofs::SavedLaws::saved_goes_on))]
pub fn continuation_law()
    ensures { SavedGoesOn }
{}

/// States that a board that `Devices::of_cells` returns is sound and has the level of the restore.
#[tactic(auto, using(crate::proofs::RestoredLaws::restored_is_sound))]
pub fn restored_law()
    ensures { RestoredIsSound }
{}

/// States that a board that a stream can describe is sound exactly if `Devices::of_cells` accepts
/// it.
///
/// The cells are those of the newest set. They are accepted if no device's rule fails and the lines
/// agree.
#[tactic(auto, using(crate::proofs::RestoredLaws::sound_meets_rules))]
pub fn rules_law()
    ensures { SoundMeetsRules }
{}

/// States the numbers of the board: which inputs are wires, and which ones devices drive.
///
/// It also gives the places of the devices among those of a set, which a `Misfit` names.
#[tactic(auto, using(crate::proofs::SoundLaws::numbers_are))]
pub fn numbers_law()
    ensures { NumbersAre }
{}
