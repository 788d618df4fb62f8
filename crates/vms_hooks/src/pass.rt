// The pass that a stored closure borrows.
ghost use Rattle.std.specs.Prelude.{◌≡◌};

use std::marker::Model;

/// The level, the set and the moment of one call of a stored closure.
///
/// There is no public constructor, `Clone`, `Copy` or `Default`: only `Hooks` makes a pass, for one
/// call.
#[derive(Drop)]
pub struct Pass {
    level: u8,
    set: u8,
    moment: u64,
}

impl Model for Pass {
    ghost use Rattle.vms_hooks.specs.Numbers.{Numbers};

    ghost Value = { Numbers };

    ghost view = { λ p. record { level = p.level; set = p.set; moment = p.moment } };
}

impl Pass {
    /// Returns the level of the board, from 1 on.
    pub fn level(&self) -> u8
        ensures { result ≡ self.now.level }
    {
        self.level
    }

    /// Returns the number of the set to save under. For a restore it is the newest.
    pub fn set(&self) -> u8
        ensures { result ≡ self.now.set }
    {
        self.set
    }

    /// Returns the moment of the save or the restore, in nanoseconds.
    pub fn now(&self) -> u64
        ensures { result ≡ self.now.moment }
    {
        self.moment
    }
}

/// Creates a pass.
pub(crate) fn make_pass(level: u8, set: u8, moment: u64) -> Pass
    ensures { result ≡ record { level = level; set = set; moment = moment } }
{
    Pass { level, set, moment }
}
