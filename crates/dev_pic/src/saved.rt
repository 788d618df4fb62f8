// Saving and restoring the pair.
ghost use Rattle.std.specs.Prelude.{◌≡◌, ◌<◌, ◌≤◌, length, IfErr};
ghost use Rattle.dev_pic.specs.Cells.{cell_count};
ghost use Rattle.dev_pic.specs.Saved.{hook_rule as hook_rule_of};

use crate::cells::{put_chip, restore_chip, save_chip};
use crate::chip::Role;
use crate::fault::ChipFault;
use crate::pair::PicPair;
use arrayvec::ArrayVec;
use dev_base::{HasHooks, hook_result};
use vms_fields::pic::CELLS;
use vms_hooks::{HookFault, Hooked, Pass};
use vms_kinds::DevCells;

/// The number of the master among the two chips.
const MASTER: u8 = 0;

/// The number of the slave among the two chips.
const SLAVE: u8 = 1;

impl Hooked for PicPair {
    ghost use Rattle.dev_pic.specs.Saved.{CanSave, CanRestore, pair_cells, hook_restored};

    ghost can_save = { CanSave };

    ghost can_restore = { CanRestore };

    ghost saves_as = { λ numbers pair cells. cells ≡ pair_cells numbers.set pair };

    ghost restores_to = { λ numbers cells outcome. outcome ≡ hook_restored numbers cells };
}

impl PicPair {
    ghost use Rattle.dev_base.specs.Levels.{MayRestore};
    ghost use Rattle.dev_pic.specs.Cells.{saved_cells, IsChipCells};
    ghost use Rattle.dev_pic.specs.Saved.{chip_at, CanSave, restored_pair};

    /// Returns the cells of the chip `chip` in the pass's set: 0 is the master, 1 the slave.
    ///
    /// # Requires
    ///
    /// `chip` is below 2. `pass` is at the pair's level, its set is from that level to the newest,
    /// and its moment is at most `LAST_MOMENT`.
    pub fn cells(&self, pass: &Pass, chip: u8) -> DevCells
        requires pass { CanSave pass.now self.now }
        requires chip { chip < 2 }
        ensures cells { result.items ≡ saved_cells pass.now.set (chip_at chip self.now) }
        ensures count { length result.items ≤ cell_count }
    {
        match chip {
            MASTER => save_chip(pass.set(), &self.master),
            _ => save_chip(pass.set(), &self.slave),
        }
    }

    /// Returns the pair that the cells `master` and `slave`, of the newest set, describe.
    ///
    /// # Requires
    ///
    /// `pass` has a level and a moment that boards have and names the newest set. Each cell fits
    /// its kind.
    ///
    /// # Errors
    ///
    /// [`ChipFault`] with the first rule that fails; the master's rules come before the slave's:
    ///
    /// 1. `lowest` is at most 7, `init_state` at most 3, and `base` has bits 2 to 0 clear.
    /// 2. `elcr` is 0 at level 1. From level 2 on it is within 0xf8 on the master and 0xde on the
    ///    slave.
    /// 3. `irr` and `lines` agree on the level inputs: the bits of `elcr`, or all if `ltim` is set.
    /// 4. `ltim` is false below level 4.
    #[tactic(auto, unfolding(crate::specs::Saved::pair_of))]
    pub fn of_cells(pass: &Pass, master: &DevCells, slave: &DevCells) -> Result<PicPair, ChipFault>
        requires pass { MayRestore pass.now }
        requires master { IsChipCells master.now.items }
        requires slave { IsChipCells slave.now.items }
        ensures restored { result ≡ restored_pair pass.now.level master.now.items slave.now.items }
        ensures rule { IfErr result (λ fault. fault.rule ≤ 4) }
    {
        let level = pass.level();
        let master = match restore_chip(level, Role::Master, master) {
            Ok(chip) => chip,
            Err(rule) => return Err(ChipFault { chip: MASTER, rule }),
        };
        match restore_chip(level, Role::Slave, slave) {
            Ok(slave) => Ok(PicPair {
                level,
                master,
                slave,
            }),
            Err(rule) => Err(ChipFault { chip: SLAVE, rule }),
        }
    }
}

impl HasHooks for PicPair {
    /// Returns the master's cells, followed by the slave's.
    fn save(&self, pass: &Pass) -> DevCells {
        let mut cells = ArrayVec::new();
        put_chip(&mut cells, pass.set(), &self.master);
        put_chip(&mut cells, pass.set(), &self.slave);
        cells
    }

    /// Returns the pair that `cells` describe. A rule of the slave has 10 added to its number.
    #[tactic(auto, unfolding(crate::specs::Saved::by_number))]
    fn load(pass: &Pass, cells: &DevCells) -> Result<PicPair, HookFault> {
        let (master, slave) = cells.split_at(CELLS);
        let pair = PicPair::of_cells(pass, &chip_cells(master), &chip_cells(slave));
        hook_result(pair.map_err(hook_rule))
    }
}

// Returns the number of the fault's rule among those of both chips.
fn hook_rule(fault: ChipFault) -> u8
    requires { fault.rule ≤ 4 }
    ensures { result ≡ hook_rule_of fault }
{
    match fault.chip {
        MASTER => fault.rule,
        _ => 10 + fault.rule,
    }
}

// Copies the cells of one chip into a list of their own.
fn chip_cells(cells: &[i128]) -> DevCells
    requires { length cells.now ≤ cell_count }
    ensures { result.items ≡ cells.now }
{
    let mut out = ArrayVec::new();
    let _fits = out.try_extend_from_slice(cells);
    out
}
