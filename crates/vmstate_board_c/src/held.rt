// The board that a handle owns.
use crate::kinds::AnyBoard;

/// A board on the heap.
#[derive(Drop)]
pub struct Held {
    /// The board.
    pub(crate) board: AnyBoard,
}
