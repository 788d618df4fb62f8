// What the levels have, and the clock.

/// The first level whose chip is an 8254, which has the read-back command and latches statuses.
pub(crate) const READ_BACK_LEVEL: u8 = 2;

/// The frequency of the clock input, in ticks a second.
pub(crate) const CLOCK_HERTZ: u64 = 1_193_182;
