// The rules at devices and their subsections.
ghost use Rattle.std.specs.Prelude.{◌≡◌, ◌<◌, ◌≤◌, ◌==◌, ◌&&◌, length, map, take, not, nat_le};
ghost use Rattle.std.specs.List.{list_any};
ghost use Rattle.std.specs.Str.{bytes_eq};
ghost use Rattle.vms_spec.specs.Rules.{is_small_test};
ghost use Rattle.vms_spec.specs.Streams.{is_one_of};
ghost use Rattle.vms_spec.specs.WellFormed.{has_few, is_same_device, sub_rules, sub_fault, device_rules, device_fault};
ghost use Rattle.vms_parts.specs.Devices.{device_at};
ghost use Rattle.vms_parts.specs.Views.{formula, desc_of, sub_of, device_of, set_of};
ghost use Rattle.vms_rules.specs.Judged.{Judges};
ghost use Rattle.vms_rules.specs.Walks.{subs_from, devices_from, sub_at, numbered};

use crate::DescFault;
use crate::descs::{all_fields, check_inside, has_few, here};
use crate::fault::lowest;
use crate::formulas::{is_small, names_well};
use crate::names::{add_name, is_sub_name};
use std::alloc::Global;
use std::collections::BTreeSet;
use vms_parts::{Device, Part, Parts, Sub};
use vms_words::is_name;

// Checks the devices of a set.
pub(crate) fn check_devices(alloc: Global, parts: &Parts) -> Result<(), DescFault>
    requires structs { length parts.now.structs ≤ 64 }
    requires devices { length parts.now.devices ≤ 64 }
    ensures { Judges (devices_from (set_of parts.now) 0 (map device_of parts.now.devices)) result }
{
    for number in 0..parts.devices.as_slice().len() {
        check_device(alloc, parts, number)?;
    }
    Ok(())
}

// Checks device `number`.
fn check_device(alloc: Global, parts: &Parts, number: usize) -> Result<(), DescFault>
    requires there { number < length parts.now.devices }
    requires structs { length parts.now.structs ≤ 64 }
    requires devices { length parts.now.devices ≤ 64 }
    ensures { Judges (device_fault (set_of parts.now) number (device_at (set_of parts.now) number))
        result }
{
    let part = Part::Device(number as u32);
    lowest(device_rules(parts, number), here(part))?;
    let structs = parts.structs.as_slice().len() as u32;
    let device = &parts.devices.as_slice()[number];
    check_inside(alloc, &device.desc, structs, part)?;
    let within = Within {
        device,
        number: number as u32,
        structs,
    };
    check_subs(alloc, within)
}

// Returns the rules at device `number` itself.
fn device_rules(parts: &Parts, number: usize) -> [bool; 8]
    requires { number < length parts.now.devices }
    ensures { result ≡ device_rules (set_of parts.now) number
        (device_at (set_of parts.now) number) }
{
    let device = &parts.devices.as_slice()[number];
    let desc = &device.desc;
    [
        is_name(100, desc.name.as_bytes()),
        !is_taken(parts.devices.as_slice(), number),
        desc.minimum <= desc.version,
        true,
        true,
        true,
        is_small_device(device),
        true,
    ]
}

// Returns whether a device has at most 32 subsections, and few fields and validations.
fn is_small_device(device: &Device) -> bool
    ensures { result ≡ (has_few (desc_of device.now.desc) && nat_le (length device.now.subs) 32) }
{
    has_few(&device.desc) && device.subs.as_slice().len() <= 32
}

// Returns whether an earlier device has the same name and instance. There are at most 63.
#[tactic(auto, using(crate::proofs::WalkLaws::same_device))]
fn is_taken(devices: &[Device], number: usize) -> bool
    requires { number < length devices.now }
    ensures { result ≡ list_any
        (is_same_device (numbered (map device_of devices.now) number).desc.name
        (numbered (map device_of devices.now) number).instance)
        (take number (map device_of devices.now)) }
{
    is_among(&devices[..number], &devices[number])
}

// Returns whether one of these devices has the same name and instance.
fn is_among(devices: &[Device], device: &Device) -> bool
    ensures { result ≡ list_any
        (λ d. bytes_eq d.desc.name device.now.desc.name && d.instance == device.now.instance)
        devices.now }
{
    devices.iter().any(|other| is_same(other, device))
}

fn is_same(other: &Device, device: &Device) -> bool
    ensures { result ≡ (bytes_eq other.now.desc.name device.now.desc.name
        && other.now.instance == device.now.instance) }
{
    other.desc.name.as_bytes() == device.desc.name.as_bytes() && other.instance == device.instance
}

// A device, its number, and the number of structures of its set.
#[derive(Clone, Copy)]
struct Within<'a> {
    device: &'a Device,
    number: u32,
    structs: u32,
}

// Checks the subsections of a device.
fn check_subs(alloc: Global, within: Within) -> Result<(), DescFault>
    requires { length within.device.now.subs ≤ 32 }
    ensures { Judges
        (subs_from within.entry.structs within.entry.number (device_of within.entry.device.now) 0
        (map sub_of within.entry.device.now.subs))
        result }
{
    let mut names = BTreeSet::new(alloc);
    for (number, sub) in within.device.subs.as_slice().iter().enumerate() {
        let is_new = add_name(&mut names, sub.desc.name.as_str())?;
        check_sub(alloc, within, number, is_new)?;
    }
    Ok(())
}

// Checks subsection `number`, given whether its name is new.
fn check_sub(alloc: Global, within: Within, number: usize, is_new: bool) -> Result<(), DescFault>
    requires there { number < length within.device.now.subs }
    requires few { length within.device.now.subs ≤ 32 }
    requires new { is_new ≡ not (is_one_of
        (map (λ e. e.desc.name) (take number (map sub_of within.device.now.subs)))
        (sub_at (device_of within.device.now) number).desc.name) }
    ensures { Judges
        (sub_fault within.entry.structs within.entry.number (device_of within.entry.device.now)
        number (sub_at (device_of within.entry.device.now) number))
        result }
{
    let part = Part::Sub(within.number, number as u32);
    lowest(sub_rules(within.device, number, is_new), here(part))?;
    let sub = &within.device.subs.as_slice()[number];
    check_inside(alloc, &sub.desc, within.structs, part)
}

// Returns the rules at subsection `number` itself, given whether its name is new.
#[tactic(auto, using(crate::proofs::WalkLaws::needed_names))]
fn sub_rules(device: &Device, number: usize, is_new: bool) -> [bool; 8]
    requires there { number < length device.now.subs }
    requires new { is_new ≡ not (is_one_of
        (map (λ e. e.desc.name) (take number (map sub_of device.now.subs)))
        (sub_at (device_of device.now) number).desc.name) }
    ensures { result ≡ sub_rules (device_of device.now) number
        (sub_at (device_of device.now) number) }
{
    let sub = &device.subs.as_slice()[number];
    let desc = &sub.desc;
    let names = names_well(
        &sub.needed,
        all_fields(desc),
        Some(all_fields(&device.desc)),
    );
    [
        is_sub_name(device.desc.name.as_bytes(), desc.name.as_bytes()),
        is_new,
        desc.minimum <= desc.version,
        names,
        true,
        true,
        is_small_sub(sub),
        true,
    ]
}

// Returns whether a subsection has few fields and validations, and a small test.
fn is_small_sub(sub: &Sub) -> bool
    ensures { result ≡ (has_few (desc_of sub.now.desc)
        && is_small_test (formula sub.now.needed)) }
{
    has_few(&sub.desc) && is_small(&sub.needed)
}
