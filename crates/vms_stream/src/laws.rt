//! The laws of streams and refusals, each the contract of a function without a body. The statements
//! are in `specs/Laws.antt` (finding a unit, and the judge over any state), `specs/StreamLaws.antt`
//! (streams and faults) and `specs/Judged.antt` (what a cursor's call decides).
ghost use Rattle.vms_stream.specs.Laws.{FoundLaw, RefusesLaw, StateRefusesLaw};
ghost use Rattle.vms_stream.specs.Judged.{JudgedLaw, NextLaw, SeenLaw};
ghost use Rattle.vms_stream.specs.StreamLaws.{ToldLaw, AcceptedLaw, TakenLaw, LocalLaw, UnitsLaw, StreamLaw, FrontLaw, OneStreamLaw, EitherLaw, NeverBothLaw, OneFaultLaw, FurtherLaw, SectionLaw, SectionReadLaw, SectionFoundLaw, WrittenLaw, WholeLaw};

/// States that `unit_at` finds exactly the unit that may come and is spelled at the front of the
/// input.
///
/// If no unit that may come is there, and only then, it finds none.
#[tactic(auto, using(crate::proofs::Stated::found_holds))]
pub fn found_law()
    ensures { FoundLaw }
{}

/// States that the judge refuses an input exactly if it has a `Fault`, with the same offset,
/// device, reason and size.
///
/// The judge's state is the list of the units so far.
pub fn refuses_law()
    ensures { RefusesLaw }
{}

/// States the same as [`refuses_law`] for the state that a loader holds.
pub fn state_refuses_law()
    ensures { StateRefusesLaw }
{}

/// States that the judge (`by_state`) accepts or refuses every input, for every set.
#[tactic(auto, using(crate::proofs::Stated::told_holds))]
pub fn told_law()
    ensures { ToldLaw }
{}

/// States that the input takes (`Takes`) what the judge accepts: a stream of the set at its front.
///
/// The stream is footed or bare. It has exactly the bytes that were read, and the machine and the
/// images of the judge's last state.
#[tactic(auto, using(crate::proofs::Stated::accepted_holds))]
pub fn accepted_law()
    ensures { AcceptedLaw }
{}

/// States that the judge accepts each stream that an input takes (`Takes`), with its length,
/// machine and images.
#[tactic(auto, using(crate::proofs::Stated::taken_holds))]
pub fn taken_law()
    ensures { TakenLaw }
{}

/// States that a footed section (`IsSection`) of a device that hasn't come is read, whatever
/// follows it.
///
/// The reading resumes after the section.
pub fn section_read_law()
    ensures { SectionReadLaw }
{}

/// States that an accepted input with the mark `04` at its front begins with a section of a device
/// that hasn't come.
///
/// The reading starts between sections.
pub fn section_found_law()
    ensures { SectionFoundLaw }
{}

/// States that the unit found at the front of an input (`unit_at`) depends only on the bytes of
/// that unit.
pub fn local_law()
    ensures { LocalLaw }
{}

/// States that units without a fault that end well (`Ends`) are a stream that the input takes.
#[tactic(auto, using(crate::proofs::Stated::units_hold))]
pub fn units_law()
    ensures { UnitsLaw }
{}

/// States that a stream that an input takes consists of units without a fault that end well
/// (`Ends`).
#[tactic(auto, using(crate::proofs::Stated::stream_holds))]
pub fn stream_law()
    ensures { StreamLaw }
{}

/// States that units without a fault (`Front`) are the first units of a stream, if the input has no
/// fault.
#[tactic(auto, using(crate::proofs::Stated::front_holds))]
pub fn front_law()
    ensures { FrontLaw }
{}

/// States that an input takes (`Takes`) at most one stream: its bytes determine length, machine and
/// images.
pub fn one_stream_law()
    ensures { OneStreamLaw }
{}

/// States that every input of bytes takes a stream (`Takes`) or has a fault (`Fault`).
pub fn either_law()
    ensures { EitherLaw }
{}

/// States that no input both takes a stream (`Takes`) and has a fault (`Fault`).
pub fn never_both_law()
    ensures { NeverBothLaw }
{}

/// States that an input has at most one `Fault`: its bytes determine offset, device, reason and
/// size.
pub fn one_fault_law()
    ensures { OneFaultLaw }
{}

/// States that a fault stays the same whatever follows the input, unless its reason is `Truncated`.
#[tactic(auto, using(crate::proofs::Stated::further_holds))]
pub fn further_law()
    ensures { FurtherLaw }
{}

/// States that what the writer gives for a ready image (`written_section`) is a footed section with
/// this image, for every set.
#[tactic(auto, using(crate::proofs::Stated::section_holds))]
pub fn section_law()
    ensures { SectionLaw }
{}

/// States that what the writer gives for ready images (`written`) is a footed stream with this
/// machine and these images.
///
/// An input that begins with these bytes takes exactly them, for every set.
#[tactic(auto, using(crate::proofs::Stated::written_holds))]
pub fn written_law()
    ensures { WrittenLaw }
{}

/// States that what the writer gives for ready images (`written`) is a whole stream of the set.
///
/// The machine is one of `names` or none. The text fits a description section, or there is none.
pub fn whole_law()
    ensures { WholeLaw }
{}

/// States that the result of a cursor's call (`seen`) decides the judge's verdict.
///
/// It decides a fault with its size, and a cut. For a good unit, only the rows of `asking` are
/// still open: those that need the set, the machines or the units so far.
#[tactic(auto, using(crate::proofs::Calls::judged_holds))]
pub fn judged_law()
    ensures { JudgedLaw }
{}

/// States how the judge treats a unit between sections directly after the fields of a section
/// without a footer.
///
/// The unit is judged as between sections, in a bare stream.
#[tactic(auto, using(crate::proofs::Calls::next_holds))]
pub fn next_law()
    ensures { NextLaw }
{}

/// States that what a cursor sees after fields (`seen`) depends only on the id of the open section,
/// and on nothing else known.
#[tactic(auto, using(crate::proofs::Calls::seen_holds))]
pub fn seen_law()
    ensures { SeenLaw }
{}
