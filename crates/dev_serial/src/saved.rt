// Saving and restoring a port.
ghost use Rattle.std.specs.Prelude.{◌≡◌, ◌≤◌, length, IfErr};
ghost use Rattle.dev_serial.specs.declared.stored.TheConstants.{PORT_CELLS};

use crate::numbers::PortNumbers;
use crate::serial::Serial;
use dev_base::{HasHooks, hook_result};
use vms_hooks::{HookFault, Hooked, Pass};
use vms_kinds::DevCells;

impl Hooked for Serial {
    ghost use Rattle.dev_serial.specs.Saved.{CanSave, CanRestore, cells_at, hook_restored};

    ghost can_save = { CanSave };

    ghost can_restore = { CanRestore };

    ghost saves_as = { λ numbers port cells. cells ≡ cells_at numbers port };

    ghost restores_to = { λ numbers cells outcome. outcome ≡ hook_restored numbers cells };
}

impl Serial {
    ghost use Rattle.dev_serial.specs.Saved.{CanSave, CanRestore, cells_at, restored_cells};

    /// Returns the cells of the set of `pass`, in the order of its description.
    ///
    /// These are the registers, then the latch, and under the sets that have them the FIFOs, the
    /// timeout and the rings.
    ///
    /// # Requires
    ///
    /// `pass` has the port's own level, and a set at or above it.
    #[inline(never)]
    pub fn cells(&self, pass: &Pass) -> DevCells
        requires { CanSave pass.now self.now }
        ensures cells { result.items ≡ cells_at pass.now self.now }
        ensures count { length result.items ≤ PORT_CELLS }
    {
        PortNumbers::of_port(self, pass.set(), pass.now()).cells(pass.set())
    }

    /// Returns the port with the newest set's `cells`, at the level and the moment of `pass`.
    ///
    /// # Errors
    ///
    /// The number of the first rule that fails, from 1 to 10.
    ///
    /// # Requires
    ///
    /// `cells` are a port's cells in the newest set.
    pub fn of_cells(pass: &Pass, cells: &DevCells) -> Result<Serial, u8>
        requires { CanRestore pass.now cells.now.items }
        ensures restored { result ≡ restored_cells pass.now cells.now.items }
        ensures rule { IfErr result (λ rule. (1 ≤ rule) × (rule ≤ 10)) }
    {
        PortNumbers::of_cells(cells).restore(pass.level(), pass.now())
    }
}

impl HasHooks for Serial {
    fn save(&self, pass: &Pass) -> DevCells {
        self.cells(pass)
    }

    fn load(pass: &Pass, cells: &DevCells) -> Result<Serial, HookFault> {
        hook_result(Serial::of_cells(pass, cells))
    }
}
