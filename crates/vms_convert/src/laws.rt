//! Laws of conversion. Each is the contract of a function with an empty body; the statements are in
//! `specs/Laws.antt`.
ghost use Rattle.vms_convert.specs.Laws.{AnswerLaw, BackLaw, ComesBackLaw, ConvertsLaw, OneBackLaw, OneLostLaw, RecastOfLaw};

/// States that at most one image of an older set comes back for given numbers of a newer device.
#[tactic(auto)]
pub fn one_back_law()
    ensures { OneBackLaw }
{}

/// States that an image comes back, whatever the numbers are.
#[tactic(auto)]
pub fn comes_back_law()
    ensures { ComesBackLaw }
{}

/// States that the image which comes back is normal, at its set's version and with exactly the
/// subsections that are needed.
#[tactic(auto)]
pub fn back_law()
    ensures { BackLaw }
{}

/// States that the recast numbers of normal images of the newest set are in the range of their
/// devices' kinds.
#[tactic(auto)]
pub fn recast_of_law()
    ensures { RecastOfLaw }
{}

/// States that there is only one first thing that is lost, and that something is lost only if not
/// all is kept.
#[tactic(auto, using(crate::proofs::Converts::one_lost))]
pub fn one_lost_law()
    ensures { OneLostLaw }
{}

/// States that each state of the newest set has images in the older set, and that either all is
/// kept or something is lost first.
#[tactic(auto, using(crate::proofs::Answered::answered))]
pub fn answer_law()
    ensures { AnswerLaw }
{}

/// States that a converted stream is one of the newer set, with the same machine and the recast
/// cells.
///
/// Converting it again gives the same bytes and no others.
#[tactic(auto, using(crate::proofs::Converts::converts_stand))]
pub fn converts_law()
    ensures { ConvertsLaw }
{}
