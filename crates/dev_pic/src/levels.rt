// What the levels of the pair have.

/// The first level with edge/level registers, and the first set with cells for them.
pub(crate) const ELCR_SINCE: u8 = vms_fields::pic::ELCR_SINCE;

/// The first level whose ICW1 has the level mode (LTIM), and the first set with a cell for it.
pub(crate) const LTIM_SINCE: u8 = vms_fields::pic::LTIM_SINCE;
