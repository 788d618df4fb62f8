// What is known of a board's devices between events.
ghost use Rattle.std.specs.Prelude.{◌≡◌};
ghost use Rattle.dev_board.specs.Kept.{later as later_of, calm_by as calm_by_of};

use dev_pit::Turns;

/// What is known of the devices between events, so that an event needn't compute it again.
#[derive(Clone, Copy)]
pub(crate) struct Kept {
    /// The master's interrupt output.
    pub int: bool,
    /// Before this moment OUT of counter 0 stays as it is.
    pub calm: u64,
}

// Returns `turn` if it is after `base`, else a moment that never comes.
fn later(base: u64, turn: u64) -> u64
    ensures { result ≡ later_of base turn }
{
    if turn > base { turn } else { u64::MAX }
}

/// Returns the first of the moments of `turns` that is after `base`, or one that never comes.
pub(crate) fn calm_by(turns: Turns, base: u64) -> u64
    ensures { result ≡ calm_by_of turns base }
{
    later(base, turns.first)
        .min(later(base, turns.second))
        .min(later(base, turns.third))
}
