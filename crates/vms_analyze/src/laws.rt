//! The laws of listings, each the contract of a function without a body. The statements are in
//! `specs/Laws.antt`.
ghost use Rattle.vms_analyze.specs.Laws.{LongestLaw, OneLaw, ReadBackLaw, ShownLaw, TotalLaw};

/// States that an input has at most one listing (`Lists`).
#[tactic(auto, using(crate::proofs::One::one_holds))]
pub fn one_law()
    ensures { OneLaw }
{}

/// States that each input has a listing (`Lists`).
#[tactic(auto, using(crate::proofs::One::total_holds))]
pub fn total_law()
    ensures { TotalLaw }
{}

/// States that the self-description of any images of a well-formed set (`described_text`) is read
/// back as its tree.
#[tactic(auto, using(crate::proofs::Shown::read_back))]
pub fn read_back_law()
    ensures { ReadBackLaw }
{}

/// States that what is `written` for ready images with their self-description lists the values text
/// of the machine and the images.
///
/// The set is well-formed; the machine is one of the set or none.
#[tactic(auto, using(crate::proofs::Shown::shown_holds))]
pub fn shown_law()
    ensures { ShownLaw }
{}

/// States that a listed input has at most 100,000,000 bytes, and a path 300.
#[tactic(auto, using(crate::proofs::One::longest_are))]
pub fn longest_law()
    ensures { LongestLaw }
{}
