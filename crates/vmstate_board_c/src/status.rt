// The statuses of calls.
/// Success.
pub(crate) const DONE: u32 = 0;

/// The stream is refused.
pub(crate) const REFUSED: u32 = 1;

/// There is no such kind, level, set, wire or counter.
pub(crate) const NONE_SUCH: u32 = 2;

/// The handle owns no board.
pub(crate) const NO_BOARD: u32 = 3;

/// The moment is before the board's.
pub(crate) const PAST: u32 = 4;

/// Out of memory.
pub(crate) const NO_MEMORY: u32 = 10;

/// The buffer is too small for the stream.
pub(crate) const TOO_SMALL: u32 = 100;
