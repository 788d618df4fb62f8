// The defaults of cells.
ghost use Rattle.std.specs.Prelude.{◌≡◌, slice_set, map, IfOk};
ghost use Rattle.vms_parts.specs.Views.{set_of, layout_of};
ghost use Rattle.vms_desc.specs.Defaults.{AreFormed, CanPut, CanPutAll, FitKinds};
ghost use Rattle.vms_desc.specs.Spots.{form_numbers};

use crate::Parts;
use crate::forms::{Forms, device_cells};
use std::alloc::{AllocError, Global};
use vms_spots::Buffer;

// Returns the numbers of each device's cells at their defaults, in order. `sizes` has the number of
// cells of each structure.
pub(crate) fn device_defaults(
    alloc: Global,
    sizes: &[u32],
    parts: &Parts,
) -> Result<Vec<Buffer>, AllocError>
    requires { AreFormed parts.now }
    ensures { IfOk result (λ defaults.
        defaults.items ≡ map form_numbers (layout_of (set_of parts.now))) }
{
    let mut defaults = Vec::new(alloc);
    for device in parts.devices.as_slice() {
        let forms = device_cells(alloc, sizes, parts.structs.as_slice(), device)?;
        defaults.push(numbers_of(alloc, &forms)?)?;
    }
    Ok(defaults)
}

// Returns the numbers of cells of these kinds, each at its default.
fn numbers_of(alloc: Global, forms: &Forms) -> Result<Buffer, AllocError>
    requires { FitKinds forms.now }
    ensures { IfOk result (λ numbers.
        numbers ≡ record {
          kinds = forms.now.kinds.items;
          numbers = forms.now.defaults.items;
        }) }
{
    let mut numbers = Buffer::new(alloc, &forms.kinds)?;
    put_defaults(&mut numbers, &forms.defaults);
    Ok(numbers)
}

// Sets each cell, which is 0, to its default.
fn put_defaults(cells: &mut Buffer, defaults: &[i128])
    requires { CanPutAll cells.old defaults.now }
    ensures { cells.new ≡ record cells.old { numbers = defaults.now } }
{
    for (cell, default) in defaults.iter().enumerate() {
        put_default(cells, cell as u32, *default);
    }
}

// Sets a cell, which is 0, to its default.
fn put_default(cells: &mut Buffer, cell: u32, default: i128)
    requires { CanPut cells.old cell default }
    ensures { cells.new ≡ record cells.old {
      numbers = slice_set cells.old.numbers cell default;
    } }
{
    if default != 0 {
        cells.set(cell, default);
    }
}
