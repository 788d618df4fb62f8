//! The first level of each feature that a 16450 lacks. It is also the first set that saves the
//! feature.

/// The first level with FIFOs, those of a 16550A.
pub(crate) const FIFOS_SINCE: u8 = vms_fields::serial::FIFOS_SINCE;

/// The first level with the character timeout.
pub(crate) const TIMEOUT_SINCE: u8 = vms_fields::serial::TIMEOUT_SINCE;

/// The first level with FIFOs that are saved as rings.
pub(crate) const RINGS_SINCE: u8 = vms_fields::serial::RINGS_SINCE;
