// A struct of two stored closures, with the facts about them.
ghost use Rattle.std.specs.Prelude.{ℤ, List, Result};
ghost use Rattle.vms_hooks.specs.Facts.{Saves, Loads};
ghost use Rattle.vms_hooks.specs.Numbers.{Numbers};
ghost use Rattle.vms_hooks.specs.declared.fault.HookFault.{HookFault};

use crate::fault::HookFault;
use crate::pass::make_pass;
use crate::steps::{LoadStep, SaveStep};
use std::marker::PhantomData;
use vms_kinds::DevCells;

/// The meaning of saving and restoring for a device type, at a level, a set and a moment.
pub trait Hooked {
    /// Holds if the device may be saved with these numbers.
    ghost can_save: { Numbers → Self → Type 0 };

    /// Holds if the cells may be restored with these numbers.
    ghost can_restore: { Numbers → List ℤ → Type 0 };

    /// Relates a device to the cells that are saved.
    ghost saves_as: { Numbers → Self → List ℤ → Type 0 };

    /// Relates cells to the restored device or to the first rule that fails.
    ghost restores_to: { Numbers → List ℤ → Result Self HookFault → Type 0 };
}

/// The two stored closures of a device, one that saves it and one that restores it.
///
/// `pre` makes the cells before a section is written, like VMState's `pre_save`. `post` makes the
/// device from the cells that were read, like `post_load`. The struct also keeps a proof that both
/// may be called on all that the device's meanings allow, and that their results are what these
/// say.
#[derive(Drop)]
pub struct Hooks<D: Hooked, P: SaveStep<D>, L: LoadStep<D>> {
    pre: P,
    post: L,
    device: PhantomData<D>,
    ghost facts: { ∥ Saves D.can_save D.saves_as P.may_save P.gives_cells pre
        × Loads D.can_restore D.restores_to L.may_load L.answers post ∥₁ },
}

impl<D: Hooked, P: SaveStep<D>, L: LoadStep<D>> Hooks<D, P, L> {
    /// Stores the closures `pre` and `post`.
    ///
    /// # Requires
    ///
    /// Both save and restore as the device's meanings say.
    pub fn new(pre: P, post: L) -> Self
        requires saves { Saves D.can_save D.saves_as P.may_save P.gives_cells pre }
        requires loads { Loads D.can_restore D.restores_to L.may_load L.answers post }
    {
        Hooks {
            pre,
            post,
            device: PhantomData,
        }
    }

    // Proves the facts that the struct keeps.
    fn known(&self)
        ensures { Saves D.can_save D.saves_as P.may_save P.gives_cells self.now.pre
            × Loads D.can_restore D.restores_to L.may_load L.answers self.now.post }
    {}

    /// Returns the cells of `device`, made by the stored closure, which borrows the pass.
    ///
    /// # Requires
    ///
    /// The device may be saved at `level`, under `set`, at `moment`.
    pub fn save_with(&self, level: u8, set: u8, moment: u64, device: &D) -> DevCells
        requires { D.can_save record { level = level; set = set; moment = moment } device.now }
        ensures { D.saves_as record { level = level; set = set; moment = moment }
            device.now result.items }
    {
        self.known();
        let pass = make_pass(level, set, moment);
        self.pre.save(&pass, device)
    }

    /// Returns the device that `cells` restore, made by the stored closure, which borrows the pass.
    ///
    /// # Errors
    ///
    /// [`HookFault`] with the number of the first of the device's rules that fails.
    ///
    /// # Requires
    ///
    /// The cells may be restored at `level`, under `set`, at `moment`.
    pub fn load_with(
        &self,
        level: u8,
        set: u8,
        moment: u64,
        cells: &DevCells,
    ) -> Result<D, HookFault>
        requires { D.can_restore record { level = level; set = set; moment = moment }
            cells.now.items }
        ensures { D.restores_to record { level = level; set = set; moment = moment }
            cells.now.items result }
    {
        self.known();
        let pass = make_pass(level, set, moment);
        self.post.load(&pass, cells)
    }
}

/// Saves `device` by the closures `pre` and `post`, which are stored for this one call.
///
/// Only a generic function, such as this one, can store concrete closures.
///
/// # Requires
///
/// Both save and restore as the device's meanings say, and the device may be saved.
pub fn save_by<D: Hooked + Drop, P: SaveStep<D> + Drop, L: LoadStep<D> + Drop>(
    pre: P,
    post: L,
    level: u8,
    set: u8,
    moment: u64,
    device: &D,
) -> DevCells
    requires saves { Saves D.can_save D.saves_as P.may_save P.gives_cells pre }
    requires loads { Loads D.can_restore D.restores_to L.may_load L.answers post }
    requires can_save { D.can_save record { level = level; set = set; moment = moment } device.now }
    ensures { D.saves_as record { level = level; set = set; moment = moment }
        device.now result.items }
{
    Hooks::new(pre, post).save_with(level, set, moment, device)
}

/// Restores a device from `cells` by the closures `pre` and `post`, stored for this one call.
///
/// # Errors
///
/// [`HookFault`] with the number of the first of the device's rules that fails.
///
/// # Requires
///
/// Both save and restore as the device's meanings say, and the cells may be restored.
pub fn load_by<D: Hooked + Drop, P: SaveStep<D> + Drop, L: LoadStep<D> + Drop>(
    pre: P,
    post: L,
    level: u8,
    set: u8,
    moment: u64,
    cells: &DevCells,
) -> Result<D, HookFault>
    requires saves { Saves D.can_save D.saves_as P.may_save P.gives_cells pre }
    requires loads { Loads D.can_restore D.restores_to L.may_load L.answers post }
    requires can_restore { D.can_restore record { level = level; set = set; moment = moment }
        cells.now.items }
    ensures { D.restores_to record { level = level; set = set; moment = moment }
        cells.now.items result }
{
    Hooks::new(pre, post).load_with(level, set, moment, cells)
}
