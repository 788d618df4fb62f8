// Boards that arguments name.
ghost use Rattle.dev_base.specs.Levels.{IsLevel, IsUpTo, ReachesSet};
ghost use Rattle.vms_commands.specs.Kinds.{newest_of};

use vms_commands::BoardKind;

/// A board `isa-1` to `isa-4`, by its level, 1 to 4.
#[derive(Clone, Copy)]
pub(crate) struct IsaBoard {
    pub(crate) level: u8,
    ghost board: { IsLevel level },
}

/// A board, and a shipped set of its kind that is at or above it.
#[derive(Clone, Copy)]
pub(crate) struct SavedBoard {
    pub(crate) kind: BoardKind,
    pub(crate) number: u8,
    pub(crate) set: u8,
    ghost board: { IsUpTo (newest_of kind) number },
    ghost may: { ReachesSet (newest_of kind) number set },
}
