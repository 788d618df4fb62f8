// Saving and restoring devices through their hooks, by closures that are stored for one call each.
use vms_hooks::{HookFault, Hooked, Pass, load_by, save_by};
use vms_kinds::DevCells;

/// A device that can be saved as cells and restored from them, as its [`Hooked`] meanings say.
pub trait HasHooks: Hooked {
    /// Returns the device's cells in the pass's set, as the stored closure saves them.
    ///
    /// # Requires
    ///
    /// The device's meaning `can_save` holds.
    fn save(&self, pass: &Pass) -> DevCells
        requires { Self.can_save pass.now self.now }
        ensures { Self.saves_as pass.now self.now result.items };

    /// Returns the device that `cells` describe, as the stored closure restores it.
    ///
    /// # Requires
    ///
    /// The device's meaning `can_restore` holds.
    ///
    /// # Errors
    ///
    /// - [`HookFault`]: the cells break a rule of the device. The fault has the number of the
    ///   first.
    fn load(pass: &Pass, cells: &DevCells) -> Result<Self, HookFault>
        requires { Self.can_restore pass.now cells.now.items }
        ensures { Self.restores_to pass.now cells.now.items result };
}

/// Returns the cells of `device`, saved at `level` and `moment` in set `set`.
///
/// # Requires
///
/// The device's meaning `can_save` holds for these three numbers.
pub fn save_device<D: HasHooks + Drop>(level: u8, set: u8, moment: u64, device: &D) -> DevCells
    requires { D.can_save record { level = level; set = set; moment = moment } device.now }
    ensures { D.saves_as record { level = level; set = set; moment = moment }
        device.now result.items }
{
    save_by(
        |pass: &Pass, device: &D| device.save(pass),
        |pass: &Pass, cells: &DevCells| D::load(pass, cells),
        level,
        set,
        moment,
        device,
    )
}

/// Returns the device that `cells` describe, restored at `level` and `moment` from set `set`.
///
/// # Requires
///
/// The device's meaning `can_restore` holds for these three numbers and the cells.
///
/// # Errors
///
/// - [`HookFault`]: the cells break a rule of the device. The fault has the number of the first.
pub fn load_device<D: HasHooks + Drop>(
    level: u8,
    set: u8,
    moment: u64,
    cells: &DevCells,
) -> Result<D, HookFault>
    requires { D.can_restore record { level = level; set = set; moment = moment } cells.now.items }
    ensures { D.restores_to record { level = level; set = set; moment = moment }
        cells.now.items result }
{
    load_by(
        |pass: &Pass, device: &D| device.save(pass),
        |pass: &Pass, cells: &DevCells| D::load(pass, cells),
        level,
        set,
        moment,
        cells,
    )
}
