// Laws of the definitions, each stated by a function without a body. Ready images are those that
// may be written (docs/format.md, "Which images may be written").
ghost use Rattle.dev_clock_images.specs.Laws.{KindsLaw, ChipIsReady, SavedAreReady, SavedIsCarried, ImagesComeBack, NormalMayBeRestored, SetsAreCompatible};
ghost use Rattle.dev_clock_images.specs.Places.{PlacesLaw};

/// States that in each clock set a device's cells have the kinds that the device saves.
#[tactic(auto, using(crate::proofs::ClockImages::kinds_are))]
pub fn kinds_law()
    ensures { KindsLaw }
{}

/// States that each clock set is compatible with the newest: a comparison of the two accepts.
#[tactic(auto, using(crate::proofs::ClockImages::sets_are_compatible))]
pub fn compatible_law()
    ensures { SetsAreCompatible }
{}

/// States that the image of the chip's cells (`mc146818`) is ready in each clock set.
#[tactic(auto, using(crate::proofs::ClockImages::chip_is_ready))]
pub fn chip_law()
    ensures { ChipIsReady }
{}

/// States that the images of sound devices' `ClockDevices::cells` are ready in the clock set.
///
/// This is so for any clock set from their version on. The images have the set's versions and
/// exactly the needed subsections.
#[tactic(auto, using(crate::proofs::ClockImages::saved_are_ready))]
pub fn saved_law()
    ensures { SavedAreReady }
{}

/// States that a comparison of clock sets carries saved images as the devices' tables carry their
/// cells.
///
/// The images are those of sound devices' `ClockDevices::cells`.
#[tactic(auto, using(crate::proofs::ClockImages::saved_is_carried))]
pub fn carried_law()
    ensures { SavedIsCarried }
{}

/// States that images saved of sound devices, carried to the newest clock set, restore devices like
/// them.
///
/// This is so for any clock set from their version on. The devices that `ClockDevices::of_cells`
/// restores give the same answers to every list of events as the saved ones.
#[tactic(auto, using(crate::proofs::ClockImages::images_come_back))]
pub fn images_law()
    ensures { ImagesComeBack }
{}

/// States that the cells of normal images of the newest clock set are what `ClockDevices::of_cells`
/// requires.
///
/// There is one image for each device. It may have come with any versions and subsections.
#[tactic(auto, using(crate::proofs::ClockImages::normal_may_be_restored))]
pub fn normal_law()
    ensures { NormalMayBeRestored }
{}

/// States the places of a clock board's devices in each clock set; a `Misfit` names them.
///
/// The clock chip is device 0. The board's devices, 0 to 4 of a shipped set, are 1 to 5.
#[tactic(auto, using(crate::proofs::ClockImages::places_are))]
pub fn places_law()
    ensures { PlacesLaw }
{}
