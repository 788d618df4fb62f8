// When a board is next due.
ghost use Rattle.dev_board.specs.Step.{step};
ghost use Rattle.dev_clock.specs.Step.{step as clock_step};
ghost use Rattle.dev_due.specs.Boards.{board_int, clock_int};
ghost use Rattle.dev_due.specs.Due.{IsDue, OneIsDue};

use crate::boards::Board;
use crate::search::first_shown;
use dev_board::Devices;
use dev_clock::ClockDevices;

/// Returns the least wait, in nanoseconds, after which the interrupt output has changed or bytes have
/// left, or `None` if no wait shows either.
pub fn due(devices: &Devices) -> Option<u64>
    ensures { IsDue step board_int devices.now result }
{
    let at = first_shown(Board::Isa(devices))?;
    Some(at - devices.now())
}

/// Returns the same of a clock board.
pub fn clock_due(devices: &ClockDevices) -> Option<u64>
    ensures { IsDue clock_step clock_int devices.now result }
{
    let at = first_shown(Board::Clock(devices))?;
    Some(at - devices.now())
}

/// States that a board is next due at one wait at most.
#[tactic(auto, using(crate::proofs::DueLaws::one_is_due))]
pub fn one_law()
    ensures isa { OneIsDue step board_int }
    ensures clock { OneIsDue clock_step clock_int }
{}
