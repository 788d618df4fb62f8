// The result of a comparison of two sets.
use vms_desc::Place;

/// A rule that fails, with its place on each side.
#[derive(Clone, Copy, Debug, PartialEq, Eq)]
pub struct Mismatch {
    /// The rule's number, 1 to 15.
    pub rule: u8,
    /// The place in the older set.
    pub in_old: Place,
    /// The place in the newer set.
    pub in_new: Place,
}

/// The result of [`check`](crate::check).
#[derive(Clone, Copy, Debug, PartialEq, Eq)]
pub enum Verdict {
    /// The sets are compatible: no rule fails.
    Accepted,
    /// The sets aren't compatible. Holds the first rule that fails.
    Refused(Mismatch),
}
