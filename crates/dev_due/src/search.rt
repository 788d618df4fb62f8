// The search for the first moment at which a board shows something.
ghost use Rattle.std.specs.Prelude.{◌≡◌, ℕ, ◌+◌, ◌*◌, ◌≤◌, IfSome};
ghost use Rattle.dev_base.specs.declared.limits.TheConstants.{LAST_MOMENT as last_moment};
ghost use Rattle.dev_due.specs.Boards.{devices_of};
ghost use Rattle.dev_due.specs.Search.{Finds, Found, FoundAt, FoundSend, FoundSends, IsBy, IsShown, Shown, Tried};

use crate::boards::Board;
use dev_base::LAST_MOMENT;
use dev_serial::Shift;

/// Tries moment `at`: returns it if it shows something and isn't after `first`, else `first`.
fn tried(board: Board<'_>, first: Option<u64>, at: u64) -> Option<u64>
    ensures finds { Finds board.entry first result }
    ensures tried { Tried board.entry at result }
{
    let now = board.now();
    if at < now || at > LAST_MOMENT {
        return first;
    }
    match first {
        Some(found) if found <= at => first,
        _ if board.shows(at) => Some(at),
        _ => first,
    }
}

/// Tries moment `base`, and those at which OUT of counter 0 may turn after it.
fn tried_from(board: Board<'_>, first: Option<u64>, base: u64) -> Option<u64>
    ensures finds { Finds board.entry first result }
    ensures tried { Tried board.entry base result }
    ensures found { Found board.entry base result }
{
    let now = board.now();
    if base < now || base > LAST_MOMENT {
        return first;
    }
    let turns = board.turns(base);
    let first = tried(board, first, base);
    let first = tried(board, first, turns.first);
    let first = tried(board, first, turns.second);
    tried(board, first, turns.third)
}

/// Does the same if there is such a moment.
fn tried_at(board: Board<'_>, first: Option<u64>, base: Option<u64>) -> Option<u64>
    ensures finds { Finds board.entry first result }
    ensures found { FoundAt board.entry base result }
{
    match base {
        Some(base) => tried_from(board, first, base),
        None => first,
    }
}

/// Tries the moment `sent` at which a byte leaves the shift register, and that at which a timeout
/// that begins then ends.
fn tried_send(board: Board<'_>, first: Option<u64>, sent: u64) -> Option<u64>
    requires { sent ≤ 5000000000000000000 }
    ensures finds { Finds board.entry first result }
    ensures send { FoundSend board.entry sent result }
{
    let first = tried_from(board, first, sent);
    tried_from(board, first, sent + 4 * board.character())
}

/// Tries these moments of each byte in the shift register and behind it.
fn tried_sends(board: Board<'_>, first: Option<u64>, shift: Option<Shift>) -> Option<u64>
    requires { IfSome shift (λ shift. shift.due ≤ 4500000000000000000) }
    ensures finds { Finds board.entry first result }
    ensures sends { FoundSends board.entry shift result }
{
    let Some(shift) = shift else {
        return first;
    };
    let bytes = board.waiting() + 1;
    let time = board.character();
    let mut first = first;
    let mut sent = shift.due;
    for _ in 0..bytes {
        first = tried_send(board, first, sent);
        sent += time;
    }
    first
}

/// Returns the first moment, from the present one on, at which the board shows something, if there
/// is one.
pub(crate) fn first_shown(board: Board<'_>) -> Option<u64>
    ensures moment { (devices_of board.entry).moment ≤ last_moment }
    ensures shown { IsShown board.entry result }
    ensures first { (at : ℕ) → Shown board.entry at → IsBy at result }
{
    let devices = board.devices();
    let first = tried_from(board, None, devices.now());
    let first = tried_at(board, first, board.timeout());
    let first = tried_sends(board, first, board.shift());
    tried_at(board, first, board.next_end())
}
