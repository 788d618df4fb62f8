// Reads the cells of a board's devices from their images.
ghost use Rattle.std.specs.Prelude.{◌≡◌, ◌<◌, map};
ghost use Rattle.dev_base.specs.declared.limits.TheConstants.{NEWEST as newest};
ghost use Rattle.dev_clock_images.specs.Images.{cells_in as clock_cells_of};
ghost use Rattle.dev_images.specs.Images.{cells_in as cells_of, list_at, numbers_in};
ghost use Rattle.vms_desc.specs.Formed.{clock_set, shipped_set};
ghost use Rattle.vms_rtc.specs.declared.limits.TheConstants.{NEWEST_CLOCK as newest_clock};
ghost use Rattle.vms_image.specs.Typed.{AreImagesOf, state_of};

use dev_board::{BoardCells, DeviceCells};
use dev_clock::ClockCells;
use dev_images::image_cells;
use vms_image::Image;
use vms_kinds::DevCells;

/// Images of the devices of the newest set, in its order, whose cells are read device by device.
#[derive(Drop)]
pub(crate) struct BoardImages<'a> {
    images: &'a [Image],
    ghost of: { AreImagesOf (shipped_set newest) images.now },
}

impl<'a> BoardImages<'a> {
    /// Returns these images.
    pub(crate) fn new(images: &'a [Image]) -> Self
        requires { AreImagesOf (shipped_set newest) images.now }
        ensures { result.images.now ≡ images.now }
    {
        BoardImages { images }
    }
}

impl DeviceCells for BoardImages<'_> {
    ghost use Rattle.std.specs.Prelude.{map};
    ghost use Rattle.dev_images.specs.Images.{cells_in as cells_of};
    ghost use Rattle.vms_image.specs.Typed.{state_of};

    ghost cells = { λ b. cells_of (map state_of b.images.now) };

    fn timer(&self) -> DevCells {
        cells_at(self.images, 0)
    }

    fn master(&self) -> DevCells {
        cells_at(self.images, 1)
    }

    fn slave(&self) -> DevCells {
        cells_at(self.images, 2)
    }

    fn pit(&self) -> DevCells {
        cells_at(self.images, 3)
    }

    fn serial(&self) -> DevCells {
        cells_at(self.images, 4)
    }
}

// Returns the cells in `images` of the devices of the newest set, in its order.
fn cells_in(images: &[Image]) -> BoardCells
    requires { AreImagesOf (shipped_set newest) images.now }
    ensures { result ≡ cells_of (map state_of images.now) }
{
    BoardCells {
        timer: cells_at(images, 0),
        master: cells_at(images, 1),
        slave: cells_at(images, 2),
        pit: cells_at(images, 3),
        serial: cells_at(images, 4),
    }
}

/// Returns the cells in `images` of the devices of the newest clock set, in its order.
pub(crate) fn clock_cells_in(images: &[Image]) -> ClockCells
    requires { AreImagesOf (clock_set newest_clock) images.now }
    ensures { result ≡ clock_cells_of (map state_of images.now) }
{
    ClockCells {
        clock: image_cells(&images[0]),
        board: cells_in(&images[1..]),
    }
}

// Returns the cells of device `device` of the newest set.
fn cells_at(images: &[Image], device: usize) -> DevCells
    requires of { AreImagesOf (shipped_set newest) images.now }
    requires device { device < 5 }
    ensures { result ≡ list_at (numbers_in (map state_of images.now)) device }
{
    image_cells(&images[device])
}
