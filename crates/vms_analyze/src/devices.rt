// The devices in a description.
ghost use Rattle.std.specs.Prelude.{map};
ghost use Rattle.vms_json.specs.Nodes.{view};
ghost use Rattle.vms_analyze.specs.Read.{device_from, device_in, devices_in, sub_from, sub_in, subs_in};
ghost use Rattle.vms_analyze.specs.Told.{ToldDevice, ToldSub};
ghost use Rattle.vms_analyze.specs.Typed.{ReadsAs, device_of, sub_of};

use crate::each::{Reads, each};
use crate::elements::{are_kept, elements_in};
use crate::members::{Unread, flag_at, four_at, list_at, path_at};
use crate::told::{Device, Sub};
use std::alloc::Global;
use vms_json::{Node, fits};
use vms_spec::LONGEST_NAME;

/// Returns the devices in a description.
///
/// # Errors
///
/// - [`Unread::Shape`]: the value has another shape.
/// - [`Unread::NoMemory`]: out of memory.
pub(crate) fn devices_in<'a>(alloc: Global, value: &Node<'_, 'a>) -> Result<Vec<Device<'a>>, Unread>
    ensures { ReadsAs (λ v. map device_of v.items) (devices_in (view value.now)) result }
{
    if fits(value, &["devices"], &[]) {
        each(alloc, list_at(value, "devices")?)
    } else {
        Err(Unread::Shape)
    }
}

impl<'a> Reads<'a> for Device<'a> {
    ghost Meaning = { ToldDevice };

    ghost means = { device_of };

    ghost says = { device_in };

    fn read(alloc: Global, value: &Node<'_, 'a>) -> Result<Self, Unread> {
        if fits(
            value,
            &["fields", "instance_id", "name", "subsections", "version"],
            &[],
        ) {
            device_from(alloc, value)
        } else {
            Err(Unread::Shape)
        }
    }
}

// Reads a device whose keys are there.
fn device_from<'a>(alloc: Global, value: &Node<'_, 'a>) -> Result<Device<'a>, Unread>
    ensures { ReadsAs device_of (device_from (view value.now)) result }
{
    let name = path_at(value, "name", LONGEST_NAME)?;
    let instance = four_at(value, "instance_id")?;
    let version = four_at(value, "version")?;
    let elements = elements_in(alloc, value)?;
    let subs = subs_in(alloc, value)?;
    Ok(Device {
        name,
        instance,
        version,
        elements,
        subs,
    })
}

fn subs_in<'a>(alloc: Global, value: &Node<'_, 'a>) -> Result<Vec<Sub<'a>>, Unread>
    ensures { ReadsAs (λ v. map sub_of v.items) (subs_in (view value.now)) result }
{
    each(alloc, list_at(value, "subsections")?)
}

impl<'a> Reads<'a> for Sub<'a> {
    ghost Meaning = { ToldSub };

    ghost means = { sub_of };

    ghost says = { sub_in };

    fn read(alloc: Global, value: &Node<'_, 'a>) -> Result<Self, Unread> {
        if fits(value, &["fields", "name", "sent", "version"], &[]) {
            sub_from(alloc, value)
        } else {
            Err(Unread::Shape)
        }
    }
}

// Reads a subsection whose keys are there.
fn sub_from<'a>(alloc: Global, value: &Node<'_, 'a>) -> Result<Sub<'a>, Unread>
    ensures { ReadsAs sub_of (sub_from (view value.now)) result }
{
    let name = path_at(value, "name", LONGEST_NAME)?;
    let sent = flag_at(value, "sent")?;
    let version = four_at(value, "version")?;
    let elements = elements_in(alloc, value)?;
    if sent || are_kept(&elements) {
        Ok(Sub {
            name,
            sent,
            version,
            elements,
        })
    } else {
        Err(Unread::Shape)
    }
}
