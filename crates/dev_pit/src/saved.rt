// Saving and restoring the chip.
ghost use Rattle.std.specs.Prelude.{◌≡◌, ◌≤◌, length, IfErr};

use crate::channel::Channel;
use crate::pit::Pit;
use dev_base::{HasHooks, first_failing, hook_result};
use vms_fields::pit::CELLS;
use vms_hooks::{HookFault, Hooked, Pass};
use vms_kinds::DevCells;

impl Hooked for Pit {
    ghost use Rattle.dev_pit.specs.Saved.{CanSave, CanRestore, hook_restored};
    ghost use Rattle.dev_pit.specs.Cells.{pit_cells};

    ghost can_save = { CanSave };

    ghost can_restore = { CanRestore };

    ghost saves_as = { λ numbers pit cells. cells ≡ pit_cells numbers.set pit };

    ghost restores_to = { λ numbers cells outcome. outcome ≡ hook_restored numbers cells };
}

impl Pit {
    ghost use Rattle.dev_pit.specs.Cells.{pit_cells};
    ghost use Rattle.dev_pit.specs.Saved.{CanSave, CanRestore, restored_pit};

    /// Returns the cells of the chip in the pass's set, which is at or above the chip's level.
    ///
    /// # Requires
    ///
    /// `pass` is at the chip's level, its set is from that level to the newest, and its moment is at
    /// most `LAST_MOMENT`.
    #[tactic(auto, unfolding(crate::specs::Cells::pit_cells))]
    pub fn cells(&self, pass: &Pass) -> DevCells
        requires { CanSave pass.now self.now }
        ensures cells { result.items ≡ pit_cells pass.now.set self.now }
        ensures count { length result.items ≤ CELLS }
    {
        Channel::cells_of(
            pass.set(),
            &Channel::of(&self.counters[0]),
            &Channel::of(&self.counters[1]),
            &Channel::of(&self.counters[2]),
        )
    }

    /// Returns the chip that `cells`, of the newest set, describe at the level and moment of
    /// `pass`.
    ///
    /// # Requires
    ///
    /// `pass` has a level and a moment that boards have and names the newest set. Each of `cells`
    /// fits its kind, and the absent ones are at their defaults.
    ///
    /// # Errors
    ///
    /// The number of the first rule that fails for any counter:
    ///
    /// 1. The mode is at most 5, and RW is 1, 2 or 3.
    /// 2. The load time is at most now, and is 0 if the counter isn't loaded.
    /// 3. A status that isn't latched is 0, and an 8253 has none latched.
    /// 4. Only a counter of RW 3 is between the two bytes of a read or of a write.
    #[tactic(auto, unfolding(dev_base::specs::Rules::judged_by, crate::specs::Saved::pit_of))]
    pub fn of_cells(pass: &Pass, cells: &DevCells) -> Result<Pit, u8>
        requires { CanRestore pass.now cells.now.items }
        ensures restored { result ≡ restored_pit pass.now.level pass.now.moment cells.now.items }
        ensures rule { IfErr result (λ rule. rule ≤ 4) }
    {
        let level = pass.level();
        let now = pass.now();
        let first = Channel::at(cells, 0);
        let second = Channel::at(cells, 1);
        let third = Channel::at(cells, 2);
        let rules = [
            first.has_registers() && second.has_registers() && third.has_registers(),
            first.has_moment(now) && second.has_moment(now) && third.has_moment(now),
            first.has_status(level) && second.has_status(level) && third.has_status(level),
            first.has_toggles() && second.has_toggles() && third.has_toggles(),
        ];
        match first_failing(&rules) {
            None => Ok(Pit {
                level,
                counters: [first.counter(), second.counter(), third.counter()],
            }),
            Some(rule) => Err(rule),
        }
    }
}

impl HasHooks for Pit {
    fn save(&self, pass: &Pass) -> DevCells {
        self.cells(pass)
    }

    fn load(pass: &Pass, cells: &DevCells) -> Result<Pit, HookFault> {
        hook_result(Pit::of_cells(pass, cells))
    }
}
