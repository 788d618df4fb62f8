// Saving and restoring the chip.
ghost use Rattle.std.specs.Prelude.{◌≡◌, ◌≤◌, length, IfErr};

use crate::cells::{byte_cells, has_registers, registers_at};
use crate::limits::NMI_SINCE;
use crate::rtc::Rtc;
use dev_base::{HasHooks, append, byte_at, flag_at, hook_result};
use vms_fields::clock::{INDEX, NMI_MASK, PF};
use vms_hooks::{HookFault, Hooked, Pass};
use vms_kinds::DevCells;

impl Hooked for Rtc {
    ghost use Rattle.vms_rtc.specs.Cells.{saved_cells};
    ghost use Rattle.vms_rtc.specs.Saved.{CanSave, CanRestore, hook_restored};

    ghost can_save = { CanSave };

    ghost can_restore = { CanRestore };

    ghost saves_as = { λ numbers chip cells. cells ≡ saved_cells numbers.set chip };

    ghost restores_to = { λ numbers cells outcome. outcome ≡ hook_restored numbers cells };
}

impl Rtc {
    ghost use Rattle.vms_rtc.specs.Cells.{saved_cells};
    ghost use Rattle.vms_rtc.specs.Saved.{CanSave, CanRestore, restored};

    /// Returns the cells of the chip under the clock set of `pass`.
    ///
    /// # Requires
    ///
    /// `pass` has the chip's version, and a clock set at or above it.
    #[tactic(auto, unfolding(crate::specs::Cells::saved_cells))]
    pub fn cells(&self, pass: &Pass) -> DevCells
        requires { CanSave pass.now self.now }
        ensures cells { result.items ≡ saved_cells pass.now.set self.now }
        ensures count { length result.items ≤ 67 }
    {
        let mut cells = byte_cells(self.index, &self.cmos);
        if pass.set() >= NMI_SINCE {
            append(&mut cells, &[i128::from(self.nmi_mask)]);
        }
        append(&mut cells, &[i128::from(self.pf)]);
        cells
    }

    /// Returns the chip with the newest clock set's `cells`, at the version of `pass`.
    ///
    /// # Errors
    ///
    /// The number of the first rule that fails:
    ///
    /// 1. The index is at most 63.
    /// 2. Register A is at most 127, and C and D are 0.
    /// 3. The NMI mask is clear if the version is 1.
    ///
    /// # Requires
    ///
    /// `cells` are a chip's cells in the newest clock set, which is the set of `pass`.
    #[tactic(auto, unfolding(dev_base::specs::Rules::judged_by, crate::specs::Saved::chip_of))]
    pub fn of_cells(pass: &Pass, cells: &DevCells) -> Result<Rtc, u8>
        requires { CanRestore pass.now cells.now.items }
        ensures restored { result ≡ restored pass.now.level cells.now.items }
        ensures rule { IfErr result (λ rule. rule ≤ 3) }
    {
        let version = pass.level();
        let index = byte_at(cells, INDEX);
        let nmi_mask = flag_at(cells, NMI_MASK);
        if index > 63 {
            return Err(1);
        }
        if !has_registers(cells) {
            return Err(2);
        }
        if version < NMI_SINCE && nmi_mask {
            return Err(3);
        }
        Ok(Rtc {
            version,
            index,
            cmos: registers_at(cells),
            nmi_mask,
            pf: flag_at(cells, PF),
        })
    }
}

impl HasHooks for Rtc {
    fn save(&self, pass: &Pass) -> DevCells {
        self.cells(pass)
    }

    fn load(pass: &Pass, cells: &DevCells) -> Result<Rtc, HookFault> {
        hook_result(Rtc::of_cells(pass, cells))
    }
}
