//! Laws of states that show a mismatch. Each is the contract of a function with an empty body. The
//! statements are in `specs/Laws.antt`.
ghost use Rattle.vms_counter_laws.specs.Laws.{NamedLaw, AlwaysLaw, ComputedLaw, OneAnswerLaw};

/// States that the newer set refuses the stream of a state that is the answer, at the given place
/// and for the given reason.
///
/// The state is ready under the older set.
#[tactic(auto, using(crate::proofs::Stated::named_holds))]
pub fn named_law()
    ensures { NamedLaw }
{}

/// States when the older set's defaults are the answer: the mismatch is a machine, a version, or a
/// constant in a field of a device that is always present; and the defaults are ready.
#[tactic(auto, using(crate::proofs::Stated::always_holds))]
pub fn always_law()
    ensures { AlwaysLaw }
{}

/// States that the answer is what trying each candidate in turn results in.
#[tactic(auto, using(crate::proofs::Stated::computed_holds))]
pub fn computed_law()
    ensures { ComputedLaw }
{}

/// States that two sets have only one answer.
#[tactic(auto, using(crate::proofs::Stated::one_answer_holds))]
pub fn one_answer_law()
    ensures { OneAnswerLaw }
{}
