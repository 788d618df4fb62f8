//! What follows for every load, as contracts of functions without a body. The statements are in
//! `specs/Exact.antt`.
ghost use Rattle.vms_load.specs.Exact.{ExactLaw, UnitLaw};

/// States that the result of a load says exactly what the input is (`Takes` or `Fault`).
///
/// If the input takes a stream, the result is Ok with its machine, images and length. If it has a
/// fault, the load is refused with its offset, device and reason. A read fault may come instead of
/// either. The set is well-formed.
#[tactic(auto, using(crate::proofs::ExactLoads::exact_holds))]
pub fn exact_law()
    ensures { ExactLaw }
{}

/// States that the bytes that a refused load took end with the offending unit (`EndsAtUnit`).
///
/// This holds whether or not the content of the source is known.
pub fn unit_law()
    ensures { UnitLaw }
{}
