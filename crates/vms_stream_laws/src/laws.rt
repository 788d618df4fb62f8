// The laws of fronts.
ghost use Rattle.vms_stream_laws.specs.Laws.{BeginningLaw, RefusedLaw};

/// States that units have no fault (`Front`) exactly if some stream begins with them (`Begins`) and
/// the validations hold.
///
/// `Begins` leaves the set's validations out. They must hold of the descriptions that ended before
/// the last unit.
#[tactic(auto, using(crate::proofs::Onward::beginnings_hold))]
pub fn beginning_law()
    ensures { BeginningLaw }
{}

/// States that the units before the fault of an input begin some stream (`Begins`), without the
/// set's validations.
pub fn refused_law()
    ensures { RefusedLaw }
{}
