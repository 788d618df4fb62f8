//! Laws of all values that are read. A law is the contract of a function without a body;
//! `specs/Depths.antt` has the statements.
ghost use Rattle.vms_descfile.specs.Depths.{DepthLaw};

/// States that no test of a value that was read is refused for its number of levels.
///
/// The test says the same within every greater bound.
#[tactic(auto, using(crate::proofs::ShownLaws::depth_holds))]
pub fn depth_law()
    ensures { DepthLaw }
{}
