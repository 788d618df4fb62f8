/// The refusal of a device's cells.
#[derive(Clone, Copy, Debug, PartialEq, Eq)]
pub struct HookFault {
    /// The number of the first rule that fails.
    pub rule: u8,
}
