//! Laws of heads, configurations and footers. A law is the contract of a function without a body;
//! `specs/Laws.antt` has the statements.
ghost use Rattle.vms_marks.specs.Laws.{HeadLaw, SubHeadLaw, ConfigurationLaw, FootLaw, LengthsAre};

/// States that a section head can be read back from its bytes, whatever follows them.
#[tactic(auto, using(crate::proofs::HeadBack::head_holds))]
pub fn head_law()
    ensures { HeadLaw }
{}

/// States that a subsection head can be read back from its bytes, whatever follows them.
#[tactic(auto, using(crate::proofs::HeadBack::sub_head_holds))]
pub fn sub_head_law()
    ensures { SubHeadLaw }
{}

/// States that a configuration can be read back from its bytes, whatever follows them.
#[tactic(auto, using(crate::proofs::HeadBack::configuration_holds))]
pub fn configuration_law()
    ensures { ConfigurationLaw }
{}

/// States that a footer can be read back from its bytes, whatever follows them.
#[tactic(auto, using(crate::proofs::HeadBack::foot_holds))]
pub fn foot_law()
    ensures { FootLaw }
{}

/// States the greatest lengths of the parts of a stream, in bytes.
///
/// A configuration has at most 260 bytes, a section's head and footer together 274, a subsection's
/// head 261, and a description section 16,777,221.
#[tactic(auto, using(crate::proofs::LengthLaws::lengths_are))]
pub fn lengths_law()
    ensures { LengthsAre }
{}
