// The types that can be called with a pass and a device, or with a pass and cells.
ghost use Rattle.std.specs.Prelude.{ℤ, Result};
ghost use Rattle.std.specs.Borrow.{Bor};
ghost use Rattle.arrayvec.specs.ArrayVec.{ArrayVec};
ghost use Rattle.vms_hooks.specs.Numbers.{Numbers};
ghost use Rattle.vms_hooks.specs.declared.fault.HookFault.{HookFault};

use crate::fault::HookFault;
use crate::pass::Pass;
use crate::sealed::{CallsToLoad, CallsToSave};
use vms_kinds::DevCells;

/// A step that saves a device: it returns the device's cells.
pub trait SaveStep<D>: CallsToSave<D> {
    /// Holds if the step may be called.
    ghost may_save: { Self → Bor Numbers → Bor D → Type 0 };

    /// Relates the arguments to the cells that the step may return.
    ghost gives_cells: { Self → Bor Numbers → Bor D → ArrayVec ℤ → Type 0 };

    /// Returns the cells of `device`.
    ///
    /// # Requires
    ///
    /// The step may be called with these arguments.
    fn save(&self, pass: &Pass, device: &D) -> DevCells
        requires { may_save self.now pass device }
        ensures { gives_cells self.now pass.entry device.entry result };
}

impl<D, F: Fn(&Pass, &D) -> DevCells> SaveStep<D> for F {
    ghost may_save = { λ f pass device. F.pre f pass device };

    ghost gives_cells = { λ f pass device cells. F.post f pass device cells };

    fn save(&self, pass: &Pass, device: &D) -> DevCells {
        self(pass, device)
    }
}

/// A step that restores a device: it returns the device, or the first rule that fails.
pub trait LoadStep<D>: CallsToLoad<D> {
    /// Holds if the step may be called.
    ghost may_load: { Self → Bor Numbers → Bor (ArrayVec ℤ) → Type 0 };

    /// Relates the arguments to the results that the step may return.
    ghost answers: { Self → Bor Numbers → Bor (ArrayVec ℤ) → Result D HookFault → Type 0 };

    /// Returns the device that `cells` restore.
    ///
    /// # Errors
    ///
    /// [`HookFault`] with the number of the first rule that fails.
    ///
    /// # Requires
    ///
    /// The step may be called with these arguments.
    fn load(&self, pass: &Pass, cells: &DevCells) -> Result<D, HookFault>
        requires { may_load self.now pass cells }
        ensures { answers self.now pass.entry cells.entry result };
}

impl<D, F: Fn(&Pass, &DevCells) -> Result<D, HookFault>> LoadStep<D> for F {
    ghost may_load = { λ f pass cells. F.pre f pass cells };

    ghost answers = { λ f pass cells outcome. F.post f pass cells outcome };

    fn load(&self, pass: &Pass, cells: &DevCells) -> Result<D, HookFault> {
        self(pass, cells)
    }
}
