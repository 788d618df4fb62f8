// The law of the eight rules.
ghost use Rattle.vms_rules_laws.specs.Laws.{EightLaw};

/// States that a set is well formed, so the walk finds no fault, exactly if the eight rules hold as
/// they are worded.
#[tactic(auto, using(crate::proofs::Eight::eight_holds))]
pub fn eight_law()
    ensures { EightLaw }
{}
