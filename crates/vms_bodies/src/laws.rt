//! The laws of the format's parts, each the contract of a function without a body. The statements
//! are in `specs/Laws.antt`. Those of streams and faults are in `vms_stream`.
ghost use Rattle.vms_spec.specs.Good.{GoodLaw, ShippedLaw};
ghost use Rattle.vms_bodies.specs.Laws.{CellLaw, ReadyLaw, ZeroedLaw};

/// States that a well-formed set is good if its instance ids and versions are below 2^32, as the
/// heads of sections have them.
#[tactic(auto, using(crate::proofs::Stated::good_holds))]
pub fn good_law()
    ensures { GoodLaw }
{}

/// States that each shipped set is well-formed, with instance ids and versions of four bytes.
#[tactic(auto, using(crate::proofs::Stated::shipped_holds))]
pub fn shipped_law()
    ensures { ShippedLaw }
{}

/// States that the cell that a path names (`cell_at`) is one of the device's cells, for every set.
#[tactic(auto, using(crate::proofs::Stated::cell_holds))]
pub fn cell_law()
    ensures { CellLaw }
{}

/// States that the computed test `is_ready` is true exactly if an image is ready (`IsReady`).
///
/// Ready means normal, valid, at the set's versions, and with exactly the needed subsections.
#[tactic(auto, using(crate::proofs::Stated::ready_holds))]
pub fn ready_law()
    ensures { ReadyLaw }
{}

/// States that what the writer gives for the fields of a description (`zeroed`, with 0 for unused
/// bytes) are bytes of these fields.
#[tactic(auto, using(crate::proofs::Stated::zeroed_holds))]
pub fn zeroed_law()
    ensures { ZeroedLaw }
{}
