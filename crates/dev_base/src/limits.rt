// The bounds of levels, sets and moments, and the unit of moments.
ghost use Rattle.std.specs.Prelude.{◌↔◌, IsTrue};
ghost use Rattle.dev_base.specs.Levels.{IsLevel};

use vms_kinds::NEWEST_SET;

/// The highest level of a board, and the number of the newest shipped set. The lowest level is 1.
pub const NEWEST: u8 = NEWEST_SET;

/// The last moment of a board, in nanoseconds after power on: that of 4,000,000,000 seconds.
pub const LAST_MOMENT: u64 = 4_000_000_000_000_000_000;

/// The number of nanoseconds in a second.
pub const NANOSECONDS: u64 = 1_000_000_000;

/// Tells whether devices have the level `level`: 1 to [`NEWEST`].
pub fn is_level(level: u8) -> bool
    ensures { IsTrue result ↔ IsLevel level }
{
    1 <= level && level <= NEWEST
}
