//! Laws of the devices' cells in the shipped sets.
ghost use Rattle.dev_images.specs.Kinds.{KindsLaw};

/// States that in each shipped set from 1 on a device's cells have the kinds that its hook `save`
/// gives.
#[tactic(auto, using(crate::proofs::ShippedDevices::kinds_are))]
pub fn kinds_law()
    ensures { KindsLaw }
{}
