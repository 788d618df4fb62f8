// The places of numbers in the bytes of images.
ghost use Rattle.std.specs.Prelude.{◌≡◌, get_or};
ghost use Rattle.vms_desc.specs.Calls.{AreBytes, AreSpots, DescribesCell, DescribesDevice, spots_in};
ghost use Rattle.vms_spots.specs.Spots.{no_spot};

use crate::DescSet;
use vms_spots::{Spot, size};

impl DescSet {
    /// Returns the spot of each number of device `device` in the bytes of its image, in the order
    /// of the cells.
    ///
    /// The first spot is at 0. Each further one is at the least multiple of its kind's width that
    /// isn't below the end of the one before. So each is inside of the bytes, and no two overlap.
    ///
    /// # Requires
    ///
    /// The set has the device.
    pub fn spots(&self, device: u32) -> &[Spot]
        requires { DescribesDevice self.now device }
        ensures { AreSpots self.now device result.now }
    {
        self.defaults(device).spots()
    }

    /// Returns the spot of the number of `cell` in the bytes of an image of device `device`.
    ///
    /// # Requires
    ///
    /// The set has the device, and the device has the cell.
    pub fn spot(&self, device: u32, cell: u32) -> Spot
        requires { DescribesCell self.now device cell }
        ensures { result ≡ get_or (spots_in self.now device) cell no_spot }
    {
        self.spots(device)[cell as usize]
    }

    /// Returns the number of bytes of an image of device `device`, at most 131,072.
    ///
    /// # Requires
    ///
    /// The set has the device.
    pub fn image_bytes(&self, device: u32) -> u32
        requires { DescribesDevice self.now device }
        ensures { AreBytes self.now device result }
    {
        size(self.spots(device))
    }
}
