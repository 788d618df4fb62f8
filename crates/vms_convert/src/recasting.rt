// The devices that the target keeps in another form than the newest set, and their numbers in that form.
ghost use Rattle.std.specs.List.{list_any};
ghost use Rattle.std.specs.Prelude.{◌≡◌, ◌&&◌, get_or, map, pos, slice_set};
ghost use Rattle.dev_serial.specs.Recast.{recast_cells};
ghost use Rattle.vms_parts.specs.Views.{device_of, sub_of};
ghost use Rattle.vms_desc.specs.Described.{described};
ghost use Rattle.vms_convert.specs.Recast.{AreCellsOf, CanRecast, IsCellOf, is_port, is_ring, wants, wants_arrays};

use dev_images::image_cells;
use dev_serial::recast;
use vms_desc::{DescSet, Device, Sub};
use vms_image::Image;
use vms_kinds::DevCells;

/// Checks whether the target keeps `device` in another form than the newest set.
pub(crate) fn is_recast(to: &DescSet, device: &Device) -> bool
    ensures { result ≡ (is_port (device_of device.now) && wants_arrays (described to.now)) }
{
    is_port(device) && wants_arrays(to)
}

// Checks whether a device is the serial port.
fn is_port(device: &Device) -> bool
    ensures { result ≡ is_port (device_of device.now) }
{
    device.desc.name.as_bytes() == b"serial".as_slice() && device.instance == 0
}

// Checks whether a set has the serial port and no rings for its FIFOs.
fn wants_arrays(to: &DescSet) -> bool
    ensures { result ≡ wants_arrays (described to.now) }
{
    want_arrays(to.parts().devices.as_slice())
}

fn want_arrays(devices: &[Device]) -> bool
    ensures { result ≡ list_any wants (map device_of devices.now) }
{
    for device in devices {
        if is_port(device) && !has_rings(device.subs.as_slice()) {
            return true;
        }
    }
    false
}

fn has_rings(subs: &[Sub]) -> bool
    ensures { result ≡ list_any is_ring (map sub_of subs.now) }
{
    for sub in subs {
        if sub.desc.name.as_bytes() == b"serial/ring".as_slice() {
            return true;
        }
    }
    false
}

/// Sets the numbers of `target`, an image of the port, to those of `source` with its FIFOs in
/// counted arrays, if they were only in rings.
pub(crate) fn recast_into(source: &Image, target: &mut Image)
    requires { CanRecast source.now target.old }
    ensures { target.new ≡ record target.old { numbers = recast_cells source.now.numbers } }
{
    let cells = recast(&image_cells(source));
    put_cells(target, &cells);
}

// Sets the numbers of `image` to `cells`.
fn put_cells(image: &mut Image, cells: &DevCells)
    requires { AreCellsOf image.old cells.now.items }
    ensures { image.new ≡ record image.old { numbers = cells.now.items } }
{
    for cell in 0..image.len() {
        put_cell(image, cell, cells);
    }
}

// Sets one of them.
fn put_cell(image: &mut Image, cell: u32, cells: &DevCells)
    requires { IsCellOf image.old cells.now.items cell }
    ensures { let number = get_or cells.now.items cell (pos 0) in
        image.new ≡ record image.old { numbers = slice_set image.old.numbers cell number } }
{
    image.set(cell, cells[cell as usize]);
}
