// What an argument that names a set or a board means.
ghost use Rattle.std.specs.Prelude.{◌≤◌};
ghost use Rattle.dev_base.specs.Levels.{IsUpTo};
ghost use Rattle.vms_commands.specs.Kinds.{first_set, newest_of};

use crate::kinds::BoardKind;

/// The set that an argument names.
#[derive(Clone, Copy)]
pub enum SetWord<'a> {
    /// A shipped set.
    Shipped(ShippedSet),
    /// The file of this name on the shelf.
    OnShelf(&'a str),
}

/// A shipped set.
#[derive(Clone, Copy)]
pub struct ShippedSet {
    /// The kind of boards that have this set.
    pub kind: BoardKind,
    /// The number of the set, from the first of its kind to the newest.
    pub number: u8,
    ghost first: { first_set kind ≤ number },
    ghost last: { number ≤ newest_of kind },
}

/// The board that an argument names.
#[derive(Clone, Copy)]
pub struct BoardWord {
    /// The kind of the board.
    pub kind: BoardKind,
    /// The number of the board, from 1 to the highest of its kind.
    pub number: u8,
    ghost board: { IsUpTo (newest_of kind) number },
}
