// The cells of a device in an image of it.
ghost use Rattle.std.specs.Prelude.{◌≡◌, ◌≤◌, length};
ghost use Rattle.vms_kinds.specs.declared.TheConstants.{MOST_CELLS};

use arrayvec::ArrayVec;
use vms_image::Image;
use vms_kinds::DevCells;

/// Returns the numbers of `image` as the cells of a device.
///
/// # Requires
///
/// The image has at most `MOST_CELLS` numbers.
pub fn image_cells(image: &Image) -> DevCells
    requires { length image.now.numbers ≤ MOST_CELLS }
    ensures { result.items ≡ image.now.numbers }
{
    let mut cells = ArrayVec::new();
    for cell in 0..image.len() {
        cells.push(image.get(cell));
    }
    cells
}
