// Laws of the definitions, each stated by a function without a body. Ready images are those that
// may be written (docs/format.md, "Which images may be written").
ghost use Rattle.dev_images.specs.Laws.{TimerIsReady, ChipIsReady, PitIsReady, SerialIsReady, SavedAreReady};
ghost use Rattle.dev_images.specs.Laws.{TimerIsCarried, ChipIsCarried, PitIsCarried, SerialIsCarried, SavedIsCarried, ImagesComeBack, NormalMayBeRestored};
ghost use Rattle.dev_images.specs.Places.{PlacesLaw};

/// States that the image of a board's moment (`timer`) is ready in each shipped set from 1 on.
#[tactic(auto, using(crate::proofs::ShippedDevices::timer_is_ready))]
pub fn timer_law()
    ensures { TimerIsReady }
{}

/// States that the image of each chip of the pair (`i8259`) is ready in each shipped set from 1 on.
#[tactic(auto, using(crate::proofs::ShippedDevices::chip_is_ready))]
pub fn chip_law()
    ensures { ChipIsReady }
{}

/// States that the image of normal cells of the timer chip (`i8254`) is ready in each shipped set
/// from 1 on.
#[tactic(auto, using(crate::proofs::PitSaved::pit_is_ready))]
pub fn pit_law()
    ensures { PitIsReady }
{}

/// States that the image of the cells that a serial port saves (`serial`) is ready in each shipped
/// set from 1 on.
#[tactic(auto, using(crate::proofs::SerialSaved::serial_is_ready))]
pub fn serial_law()
    ensures { SerialIsReady }
{}

/// States that the images of a sound board's `Devices::cells` are ready in the set.
///
/// This is so for any shipped set from the board's level on. The images have the set's versions and
/// exactly the needed subsections.
#[tactic(auto, using(crate::proofs::BoardReady::saved_are_ready))]
pub fn saved_law()
    ensures { SavedAreReady }
{}

/// States that the cell of `timer`, from any shipped set from 1 on, is carried unchanged to the
/// newest.
#[tactic(auto, using(crate::proofs::ShippedDevices::timer_is_carried))]
pub fn carried_timer_law()
    ensures { TimerIsCarried }
{}

/// States that the cells of an `i8259`, from any shipped set from 1 on, are carried as its table
/// says.
#[tactic(auto, using(crate::proofs::ShippedDevices::chip_is_carried))]
pub fn carried_chip_law()
    ensures { ChipIsCarried }
{}

/// States that the cells of `i8254`, from any shipped set from 1 on, are carried as its table says.
///
/// An absent cell must be at its default.
#[tactic(auto, using(crate::proofs::PitSaved::pit_is_carried))]
pub fn carried_pit_law()
    ensures { PitIsCarried }
{}

/// States that the cells of `serial`, from any shipped set from 1 on, are carried as its table
/// says.
///
/// The cells are those that a serial port saves.
#[tactic(auto, using(crate::proofs::SerialSaved::serial_is_carried))]
pub fn carried_serial_law()
    ensures { SerialIsCarried }
{}

/// States that a comparison of sets carries saved images as the devices' own tables carry their
/// cells.
///
/// The images are those of a sound board's `Devices::cells`.
#[tactic(auto, using(crate::proofs::Carried::saved_is_carried))]
pub fn carried_law()
    ensures { SavedIsCarried }
{}

/// States that images saved of a sound board, carried to the newest set, restore a board like it.
///
/// This is so for any set from the board's level on. The board that `Devices::of_cells` restores
/// gives the same answers to every list of events as the saved one.
#[tactic(auto, using(crate::proofs::Carried::images_come_back))]
pub fn images_law()
    ensures { ImagesComeBack }
{}

/// States that the cells of normal images of the newest set are what `Devices::of_cells` requires.
///
/// There is one image for each device. It may have come with any versions and subsections.
#[tactic(auto, using(crate::proofs::NormalCells::normal_may_be_restored))]
pub fn normal_law()
    ensures { NormalMayBeRestored }
{}

/// States the places of a board's devices in each shipped set from 1 on; a `Misfit` names them.
///
/// The timer is device 0, the master 1, the slave 2, the timer chip 3 and the serial port 4.
#[tactic(auto, using(crate::proofs::ShippedDevices::places_are))]
pub fn places_law()
    ensures { PlacesLaw }
{}
