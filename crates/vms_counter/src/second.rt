// The second candidate.
ghost use Rattle.std.specs.Prelude.{IfOk};
ghost use Rattle.vms_counter.specs.Calls.{AreRaised, AreRaisedFor, AreWithImage, AreWithRaised, HasDevice, HasImage, IsExcessFor};

use crate::raising::{Counting, Excess, find_excess, raised_image};
use std::alloc::Global;
use vms_check::Mismatch;
use vms_desc::{DescSet, Part};
use vms_image::Image;
use vms_io::NoMemory;
use vms_load::default_images;

// A field of a device, both by their numbers.
#[derive(Clone, Copy)]
struct DeviceField {
    device: u32,
    field: u32,
}

/// Returns the second candidate, if the mismatch is about the capacities of two fields of devices.
///
/// # Errors
///
/// [`NoMemory`] if memory runs out.
pub(crate) fn raised(
    alloc: Global,
    old: &DescSet,
    new: &DescSet,
    mismatch: &Mismatch,
) -> Result<Option<Vec<Image>>, NoMemory>
    ensures { IfOk result (AreRaised old.now new.now mismatch.now) }
{
    if mismatch.rule != 11 {
        return Ok(None);
    }
    let (older, newer) = (mismatch.in_old, mismatch.in_new);
    match (older.part, older.field, newer.part, newer.field) {
        (Part::Device(i), Some(j), Part::Device(k), Some(l)) => {
            let older = DeviceField {
                device: i,
                field: j,
            };
            let newer = DeviceField {
                device: k,
                field: l,
            };
            raised_fields(alloc, old, new, older, newer)
        }
        _ => Ok(None),
    }
}

fn raised_fields(
    alloc: Global,
    old: &DescSet,
    new: &DescSet,
    older: DeviceField,
    newer: DeviceField,
) -> Result<Option<Vec<Image>>, NoMemory>
    ensures { IfOk result (AreRaisedFor old.now new.now older newer) }
{
    match excess_at(old, new, older, newer) {
        None => Ok(None),
        Some(excess) => with_raised(alloc, old, older.device, excess),
    }
}

// Returns the counting field and the capacity for the two fields, if they exist.
fn excess_at(old: &DescSet, new: &DescSet, older: DeviceField, newer: DeviceField) -> Option<Excess>
    ensures { IsExcessFor old.now new.now older newer result }
{
    let d = old.parts().devices.as_slice().get(older.device as usize)?;
    let e = new.parts().devices.as_slice().get(newer.device as usize)?;
    let f = d.desc.fields.as_slice().get(older.field as usize)?;
    let g = e.desc.fields.as_slice().get(newer.field as usize)?;
    let counts = Counting {
        number: older.field,
        count: f.count,
    };
    let is_counted = Counting {
        number: newer.field,
        count: g.count,
    };
    find_excess(e.desc.fields.as_slice(), d.desc.version, counts, is_counted)
}

fn with_raised(
    alloc: Global,
    set: &DescSet,
    device: u32,
    excess: Excess,
) -> Result<Option<Vec<Image>>, NoMemory>
    requires { HasDevice set.now device }
    ensures { IfOk result (AreWithRaised set.now device excess) }
{
    match raised_image(alloc, set, device, excess)? {
        None => Ok(None),
        Some(image) => put_image(alloc, set, device, image),
    }
}

fn put_image(
    alloc: Global,
    set: &DescSet,
    device: u32,
    image: Image,
) -> Result<Option<Vec<Image>>, NoMemory>
    requires { HasImage set.now device image }
    ensures { IfOk result (AreWithImage set.now device image) }
{
    let mut images = default_images(alloc, set)?;
    images[device as usize] = image;
    Ok(Some(images))
}
