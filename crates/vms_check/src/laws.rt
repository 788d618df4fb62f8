// Laws of the comparison.
ghost use Rattle.vms_check.specs.Laws.{ReducedLaw, ReflexiveLaw, RulesLaw, ShippedLaw};

/// States that a test, reduced for a known version, is true exactly if the test itself is true at
/// that version.
#[tactic(auto, using(crate::proofs::CapacityLaws::reduced_holds))]
pub fn reduced_law()
    ensures { ReducedLaw }
{}

/// States that [`check`](crate::check) finds no failing rule exactly if all fifteen rules hold as
/// they are worded.
///
/// This is so for every older set and every well-formed newer one.
#[tactic(auto, using(crate::proofs::SetsFit::rules_hold))]
pub fn rules_law()
    ensures { RulesLaw }
{}

/// States that [`check`](crate::check) accepts every well-formed set with itself.
#[tactic(auto, using(crate::proofs::SelfLaws::reflexive))]
pub fn reflexive_law()
    ensures { ReflexiveLaw }
{}

/// States that [`check`](crate::check) accepts each shipped set from `@1` on with each later one.
#[tactic(auto, using(crate::proofs::CompareRows::shipped_compatible))]
pub fn shipped_law()
    ensures { ShippedLaw }
{}
