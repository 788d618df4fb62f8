// What the heads of sections and subsections open.
ghost use Rattle.std.specs.Prelude.{◌≡◌};
ghost use Rattle.vms_parts.specs.Views.{desc_of, device_of, sub_of};
ghost use Rattle.vms_load.specs.Calls.{AreOfDevices, HasSubs, OpensSection, OpensSub};
ghost use Rattle.vms_load.specs.Heads.{reason_against, reason_against_version, reason_against_sub};

use crate::LoadFault;
use crate::fault::refused;
use vms_desc::{Desc, DescSet, Device, Sub, find_sub};
use vms_image::Image;
use vms_marks::{Head, Name};
use vms_spec::Reason;

/// Returns the number of the device that the section head `head` at offset `at` opens.
///
/// `came` says which devices have come.
///
/// # Errors
///
/// - [`LoadFault::Refused`]: `UnknownSection`, `RepeatedSection`, `TooNew` or `TooOld`.
pub(crate) fn open_section(
    set: &DescSet,
    came: &[bool],
    head: &Head,
    at: u64,
) -> Result<u32, LoadFault>
    requires { AreOfDevices set.now came.now }
    ensures { OpensSection set.now came.now head.now at result }
{
    let number = match set.find(&head.name, head.instance) {
        None => return Err(refused(None, at, Reason::UnknownSection)),
        Some(number) => number,
    };
    match against_device(set.device(number), came[number as usize], head.version) {
        None => Ok(number),
        Some(reason) => Err(refused(Some(number), at, reason)),
    }
}

// Returns the reason against a section of `device` at `version`, if there is one.
fn against_device(device: &Device, came: bool, version: u32) -> Option<Reason>
    ensures { result ≡ reason_against (device_of device.now) came version }
{
    if came {
        Some(Reason::RepeatedSection)
    } else {
        against_version(&device.desc, version)
    }
}

// Returns the reason against `version` of a description, if there is one.
fn against_version(desc: &Desc, version: u32) -> Option<Reason>
    ensures { result ≡ reason_against_version (desc_of desc.now) version }
{
    if version > desc.version {
        Some(Reason::TooNew)
    } else if version < desc.minimum {
        Some(Reason::TooOld)
    } else {
        None
    }
}

/// Returns the number of the subsection `name` that a subsection head opens.
///
/// # Errors
///
/// - [`Reason`]: `UnknownSubsection`, `TooNew`, `TooOld` or `RepeatedSubsection`.
pub(crate) fn open_sub(
    device: &Device,
    image: &Image,
    name: &Name,
    version: u32,
) -> Result<u32, Reason>
    requires { HasSubs device.now image.now }
    ensures { OpensSub device.now image.now name.now.items version result }
{
    let sub = match find_sub(device.subs.as_slice(), name) {
        None => return Err(Reason::UnknownSubsection),
        Some(sub) => sub,
    };
    match against_sub(
        &device.subs.as_slice()[sub as usize],
        image.came(sub),
        version,
    ) {
        None => Ok(sub),
        Some(reason) => Err(reason),
    }
}

// Returns the reason against a subsection that came at version `came` or not yet, if there is one.
fn against_sub(sub: &Sub, came: Option<u32>, version: u32) -> Option<Reason>
    ensures { result ≡ reason_against_sub (sub_of sub.now) came version }
{
    match against_version(&sub.desc, version) {
        None if came.is_some() => Some(Reason::RepeatedSubsection),
        reason => reason,
    }
}
