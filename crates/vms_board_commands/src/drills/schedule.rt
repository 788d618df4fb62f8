// When a drill saves its board, and under which set.
ghost use Rattle.std.specs.Prelude.{◌≡◌};
ghost use Rattle.dev_base.specs.Levels.{IsLevel};
ghost use Rattle.dev_board.specs.Saved.{MaySaveUnder};
ghost use Rattle.vms_board_commands.specs.DrillProgress.{is_save_due, set_of};

use dev_base::NEWEST;

/// The number of events from one save to the next.
pub const BETWEEN_SAVES: u32 = 1_000;

/// Checks whether the board is saved after `events` events.
#[tactic(auto, unfolding(crate::specs::DrillProgress::is_save_due))]
pub fn is_save_due(events: u32) -> bool
    ensures { result ≡ is_save_due events }
{
    events % BETWEEN_SAVES == 0
}

/// Returns the set under which a board of level `level` is saved after `saves` saves: the sets from
/// its level to the newest, in turn.
///
/// # Requires
///
/// `level` is a board's level, 1 to 4.
#[tactic(auto, using(crate::proofs::DrillLaws::save_may), unfolding(crate::specs::DrillProgress::set_of))]
pub fn set_of(level: u8, saves: u32) -> u8
    requires { IsLevel level }
    ensures set { result ≡ set_of level saves }
    ensures may { MaySaveUnder level result }
{
    let sets = u32::from(NEWEST - level) + 1;
    level + (saves % sets) as u8
}
