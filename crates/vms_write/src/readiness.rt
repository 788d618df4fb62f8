// Which images may be written.
ghost use Rattle.std.specs.Prelude.{◌≡◌, ◌<◌, length, map};
ghost use Rattle.std.specs.Bool.{OnTrue, OnFalse};
ghost use Rattle.vms_spec.specs.Layout.{device_cells};
ghost use Rattle.vms_spec.specs.Streams.{IsReady, AreReady};
ghost use Rattle.vms_desc.specs.Described.{described, device_at};
ghost use Rattle.vms_image.specs.Typed.{state_of, AreImagesOf};
ghost use Rattle.vms_write.specs.Calls.{HasDevice, HasSub, IsOf, Judges, are_subs_fine, is_bare, is_own_fine, is_sent_fine, is_sub_fine};

use crate::fine::{are_default, is_part_fine};
use vms_desc::{DescSet, Part};
use vms_image::Image;
use vms_walk::PartAt;

/// Returns whether `image`, of device `device`, may be written.
///
/// - It is at the set's version, and exactly the needed subsections came.
/// - Each number is in range and at most the capacity that it counts.
/// - Each cell without a byte is at its default.
/// - The validations hold.
///
/// The call walks once over the device's cells.
///
/// # Requires
///
/// The set has the device, and the image has the device's number of cells and subsections.
pub fn ready(set: &DescSet, device: u32, image: &Image) -> bool
    requires is_device { device < length (described set.now).devices }
    requires subs { let d = device_at (described set.now) device in
        length image.now.came ≡ length d.subs }
    requires cells { let set = described set.now in let d = device_at set device in
        length image.now.numbers ≡ length (device_cells set d) }
    ensures ready { let set = described set.now in let d = device_at set device in
        OnTrue result (IsReady set d (state_of image.now)) }
    ensures other { let set = described set.now in let d = device_at set device in
        OnFalse result (IsReady set d (state_of image.now) → ⊥) }
{
    is_own_fine(set, device, image) && are_subs_fine(set, device, image)
}

/// Returns whether `images` are one image for each device of the set, in its order, each of which
/// may be written.
///
/// Each must have the device's cells and their kinds.
pub fn are_ready(set: &DescSet, images: &[Image]) -> bool
    ensures ready { OnTrue result (AreReady (described set.now) (map state_of images.now)) }
    ensures of { OnTrue result (AreImagesOf (described set.now) images.now) }
    ensures other { let set = described set.now in
        OnFalse result (AreImagesOf set images.now → AreReady set (map state_of images.now) → ⊥) }
{
    if images.len() != set.parts().devices.as_slice().len() {
        return false;
    }
    for (device, image) in images.iter().enumerate() {
        if !may_be_written(set, device as u32, image) {
            return false;
        }
    }
    true
}

// Returns whether `image` is one of the device, and may be written.
fn may_be_written(set: &DescSet, device: u32, image: &Image) -> bool
    requires { HasDevice set.now device }
    ensures { Judges set.now device image.now result }
{
    image.is_of(set, device) && ready(set, device, image)
}

// Returns whether the device's own fields may be written.
fn is_own_fine(set: &DescSet, device: u32, image: &Image) -> bool
    requires device { IsOf set.now device image.now }
    ensures { result ≡ is_own_fine set.now device image.now }
{
    let version = image.version();
    let own = PartAt {
        part: Part::Device(device),
        version,
        base: 0,
    };
    version == set.device(device).desc.version
        && is_part_fine(set, own, image, set.defaults(device))
}

// Returns whether the subsections may be written, those that came and the others.
fn are_subs_fine(set: &DescSet, device: u32, image: &Image) -> bool
    requires device { IsOf set.now device image.now }
    ensures { result ≡ are_subs_fine set.now device image.now }
{
    for sub in 0..set.sub_count(device) {
        if !is_sub_fine(set, device, image, sub) {
            return false;
        }
    }
    true
}

fn is_sub_fine(set: &DescSet, device: u32, image: &Image, sub: u32) -> bool
    requires { HasSub set.now device image.now sub }
    ensures { result ≡ is_sub_fine set.now device image.now sub }
{
    let needed = set.is_needed(device, sub, image);
    match image.came(sub) {
        None => !needed && is_bare(set, device, image, sub),
        Some(version) => needed && is_sent_fine(set, device, image, sub, version),
    }
}

/// Returns whether all cells of subsection `sub` are at their defaults, as they must be if it
/// didn't come.
///
/// # Requires
///
/// The set has the device and the subsection, and `image` is of the device.
pub fn is_bare(set: &DescSet, device: u32, image: &Image, sub: u32) -> bool
    requires { HasSub set.now device image.now sub }
    ensures { result ≡ is_bare set.now device image.now sub }
{
    let part = Part::Sub(device, sub);
    let first = set.first_cell(part);
    let end = first + set.cells_of(part);
    are_default(image, set.defaults(device), first, end)
}

// Returns whether a subsection that came at `version` may be written.
fn is_sent_fine(set: &DescSet, device: u32, image: &Image, sub: u32, version: u32) -> bool
    requires { HasSub set.now device image.now sub }
    ensures { result ≡ is_sent_fine set.now device image.now sub version }
{
    let part = Part::Sub(device, sub);
    let spot = PartAt {
        part,
        version,
        base: set.first_cell(part),
    };
    version == set.desc(part).version && is_part_fine(set, spot, image, set.defaults(device))
}
