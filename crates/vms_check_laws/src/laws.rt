//! Laws of an upgrade. Each is the contract of a function with an empty body. The statements are in
//! `specs/Positions.antt`, `specs/Fronts.antt`, `specs/Laws.antt` and `specs/CellLaws.antt`.
ghost use Rattle.vms_check_laws.specs.CellLaws.{CarriedLaw, PartnersLaw};
ghost use Rattle.vms_check_laws.specs.Fronts.{AlignedLaw};
ghost use Rattle.vms_check_laws.specs.Laws.{DeviceLaw, UpgradeLaw};
ghost use Rattle.vms_check_laws.specs.Positions.{PositionLaw};

/// States that the newer set reads, as carried, what the older set writes for a field.
///
/// The two fields are paired and no rule fails at them. They may be a number, an array, a
/// structure, or anything that unused bytes of the newer set cover.
#[tactic(auto)]
pub fn position_law()
    ensures { PositionLaw }
{}

/// States that the newer set's fields at the first positions take exactly the bytes that the older
/// set wrote for its own.
///
/// No rule fails at these positions. The statement holds whatever the numbers are and whatever rule
/// fails at later positions.
#[tactic(auto)]
pub fn aligned_law()
    ensures { AlignedLaw }
{}

/// States that the section which the older set writes of a device is one of the newer set, with the
/// carried image.
///
/// No rule fails at the device and the newer one of the same name and instance. Any of its
/// subsections may be present.
#[tactic(auto)]
pub fn device_law()
    ensures { DeviceLaw }
{}

/// States that the newer of two compatible sets reads every stream that the older one writes, with
/// the carried images.
///
/// The sets are well formed and the images ready. The stream may name any machine of the older set
/// or none, and have any description or none. The newer set reads all of it.
#[tactic(auto)]
pub fn upgrade_law()
    ensures { UpgradeLaw }
{}

/// States that each cell of an older device has at most one partner in a newer device.
///
/// The partner is of the cell's kind, and no two cells have the same partner. The sets are well
/// formed.
#[tactic(auto)]
pub fn partners_law()
    ensures { PartnersLaw }
{}

/// States cell by cell what is carried: a newer cell has the number of its partner, if that is in
/// the bytes, and else its default.
#[tactic(auto)]
pub fn carried_law()
    ensures { CarriedLaw }
{}
