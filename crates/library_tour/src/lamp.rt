// A device of one's own: a lamp, which stored closures save and restore.
ghost use Rattle.std.specs.Prelude.{◌≡◌, ◌≤◌, Ok};
ghost use Rattle.library_tour.specs.Lamps.{cells_of, lamp_of, brightest};

use arrayvec::ArrayVec;
use vms_hooks::{HookFault, Hooked, Pass, load_by, save_by};
use vms_kinds::DevCells;

/// The largest brightness, in percent.
const BRIGHTEST: u8 = 100;

/// A lamp.
#[derive(Clone, Copy, Debug, PartialEq, Eq)]
pub struct Lamp {
    /// The brightness in percent, 0 to 100.
    pub brightness: u8,
    /// Whether the lamp is on.
    pub is_on: bool,
}

impl Hooked for Lamp {
    // which lamps may be saved, and which cells may be restored
    ghost can_save = { λ pass lamp. lamp.brightness ≤ brightest };

    ghost can_restore = { λ pass cells. Unit {0} };

    // what is saved of a lamp, and what is restored of cells
    ghost saves_as = { λ pass lamp cells. cells ≡ cells_of lamp };

    ghost restores_to = { λ pass cells outcome. outcome ≡ lamp_of cells };
}

/// Returns the cells of `lamp`.
///
/// # Requires
///
/// The brightness of `lamp` is at most 100.
pub fn saved(lamp: &Lamp) -> DevCells
    requires { lamp.now.brightness ≤ brightest }
    ensures { result.items ≡ cells_of lamp.now }
{
    save_by(
        |pass: &Pass, lamp: &Lamp| pre_save(lamp),
        |pass: &Pass, cells: &DevCells| post_load(cells),
        1,
        1,
        0,
        lamp,
    )
}

/// Returns the lamp with these `cells`.
///
/// # Errors
///
/// [`HookFault`] with the number of the first rule that fails: (1) there are two cells, and neither
/// is negative; (2) the first is a brightness; (3) the second is a truth value.
pub fn restored(cells: &DevCells) -> Result<Lamp, HookFault>
    ensures { result ≡ lamp_of cells.now.items }
{
    load_by(
        |pass: &Pass, lamp: &Lamp| pre_save(lamp),
        |pass: &Pass, cells: &DevCells| post_load(cells),
        1,
        1,
        0,
        cells,
    )
}

/// Saves `lamp` and restores it. The result is the same lamp.
///
/// # Requires
///
/// The brightness of `lamp` is at most 100.
///
/// # Errors
///
/// Never; the contract says so.
pub fn there_and_back(lamp: &Lamp) -> Result<Lamp, HookFault>
    requires { lamp.now.brightness ≤ brightest }
    ensures { result ≡ Ok lamp.now }
{
    restored(&saved(lamp))
}

// Called before a section is written, like VMState's pre_save.
fn pre_save(lamp: &Lamp) -> DevCells
    ensures { result.items ≡ cells_of lamp.now }
{
    let mut cells = ArrayVec::new();
    let _fits = cells.try_extend_from_slice(&[
        i128::from(lamp.brightness),
        i128::from(u8::from(lamp.is_on)),
    ]);
    cells
}

// Called after a section was read, like VMState's post_load.
fn post_load(cells: &DevCells) -> Result<Lamp, HookFault>
    ensures { result ≡ lamp_of cells.now.items }
{
    let [brightness, switch] = cells.as_slice() else {
        return Err(HookFault { rule: 1 });
    };
    if *brightness < 0 || *switch < 0 {
        return Err(HookFault { rule: 1 });
    }
    if *brightness > i128::from(BRIGHTEST) {
        return Err(HookFault { rule: 2 });
    }
    if *switch > 1 {
        return Err(HookFault { rule: 3 });
    }
    Ok(Lamp {
        brightness: *brightness as u8,
        is_on: *switch == 1,
    })
}
