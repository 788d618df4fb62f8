// Two whole sets: machines, devices, and then each device with its subsections.
ghost use Rattle.std.specs.List.{list_all};
ghost use Rattle.std.specs.Prelude.{◌≡◌, ◌<◌, ◌≤◌, length, map};
ghost use Rattle.vms_desc.specs.Described.{described};
ghost use Rattle.vms_desc.specs.Parts.{HasPart};
ghost use Rattle.vms_parts.specs.Views.{desc_of, device_of};
ghost use Rattle.vms_spec.specs.Lists.{position};
ghost use Rattle.vms_spec.specs.Readiness.{is_version_of};
ghost use Rattle.vms_spec.specs.Streams.{is_one_of};
ghost use Rattle.vms_check.specs.Comparing.{first_mismatch, is_in};
ghost use Rattle.vms_check.specs.Sides.{IsSide};
ghost use Rattle.vms_check.specs.Wholes.{HaveDevices, HaveSub, device_mismatch_at, devices_mismatch, found_mismatch, is_missing, lost_mismatch};
ghost use Rattle.vms_check.specs.Wholes.{machines_mismatch, part_mismatch, sets_mismatch, sub_mismatch, subs_mismatch, verdict_of};

use crate::descs::compare_descs;
use crate::side::{Side, at_own_version, desc_of, here};
use crate::{Mismatch, Verdict};
use vms_desc::{Desc, DescSet, Device, Part, Sub, Text, find_sub, is_one_of};

/// Checks whether `new` reads what `old` writes. Returns the first of fifteen rules that fails,
/// with its place on each side.
pub fn check(old: &DescSet, new: &DescSet) -> Verdict
    ensures { result ≡ verdict_of (first_mismatch (described old.now) (described new.now)) }
{
    match first_mismatch(old, new) {
        None => Verdict::Accepted,
        Some(mismatch) => Verdict::Refused(mismatch),
    }
}

fn first_mismatch(old: &DescSet, new: &DescSet) -> Option<Mismatch>
    ensures { result ≡ sets_mismatch old.now new.now }
{
    if let Some(mismatch) = compare_machines(old, new) {
        return Some(mismatch);
    }
    if let Some(mismatch) = compare_names(old, new) {
        return Some(mismatch);
    }
    compare_devices(old, new)
}

// ---- machines and the names of devices

fn are_all_in(names: &[Text], known: &[Text]) -> bool
    ensures { result ≡ list_all (is_one_of known.now) names.now }
{
    for name in names {
        if !is_one_of(known, name.as_bytes()) {
            return false;
        }
    }
    true
}

fn compare_machines(old: &DescSet, new: &DescSet) -> Option<Mismatch>
    ensures { result ≡ machines_mismatch (described old.now) (described new.now) }
{
    let known = new.parts().machines.as_slice();
    if are_all_in(old.parts().machines.as_slice(), known) {
        return None;
    }
    Some(Mismatch {
        rule: 1,
        in_old: here(Part::Set),
        in_new: here(Part::Set),
    })
}

// Returns the number of the first device that a set doesn't have.
fn missing(devices: &[Device], set: &DescSet) -> Option<u32>
    requires { length devices.now ≤ 64 }
    ensures { result ≡ position (is_missing (described set.now)) 0 (map device_of devices.now) }
{
    for (number, device) in devices.iter().enumerate() {
        if !has_device(set, device) {
            return Some(number as u32);
        }
    }
    None
}

fn has_device(set: &DescSet, device: &Device) -> bool
    ensures { result ≡ is_in (described set.now) (device_of device.now) }
{
    set.find(device.desc.name.as_bytes(), device.instance)
        .is_some()
}

// Compares which devices the sets have.
fn compare_names(old: &DescSet, new: &DescSet) -> Option<Mismatch>
    ensures { result ≡ lost_mismatch (described old.now) (described new.now) }
{
    if let Some(number) = missing(old.parts().devices.as_slice(), new) {
        return Some(Mismatch {
            rule: 2,
            in_old: here(Part::Device(number)),
            in_new: here(Part::Set),
        });
    }
    if let Some(number) = missing(new.parts().devices.as_slice(), old) {
        return Some(Mismatch {
            rule: 3,
            in_old: here(Part::Set),
            in_new: here(Part::Device(number)),
        });
    }
    None
}

// ---- devices

fn compare_devices(old: &DescSet, new: &DescSet) -> Option<Mismatch>
    ensures { result ≡ devices_mismatch old.now new.now }
{
    let mut number = 0;
    while number < old.parts().devices.as_slice().len() {
        if let Some(mismatch) = compare_device(old, new, number as u32) {
            return Some(mismatch);
        }
        number += 1;
    }
    None
}

// Compares device `number` with the new one of the same name and instance.
fn compare_device(old: &DescSet, new: &DescSet, number: u32) -> Option<Mismatch>
    requires { number < length (described old.now).devices }
    ensures { result ≡ device_mismatch_at old.now new.now number }
{
    let device = old.device(number);
    match new.find(device.desc.name.as_bytes(), device.instance) {
        Some(found) => compare_found(old, new, number, found),
        None => None,
    }
}

// Compares two devices of the same name and instance.
fn compare_found(old: &DescSet, new: &DescSet, in_old: u32, in_new: u32) -> Option<Mismatch>
    requires { HaveDevices old.now new.now in_old in_new }
    ensures { result ≡ found_mismatch old.now new.now in_old in_new }
{
    let (part, other) = (Part::Device(in_old), Part::Device(in_new));
    if let Some(mismatch) = compare_parts(4, at_own_version(old, part), new, other) {
        return Some(mismatch);
    }
    compare_subs(old, new, in_old, in_new)
}

// Compares two parts at the old one's version. Rule `rule` says that the new one reads that version.
fn compare_parts(rule: u8, old: Side, set: &DescSet, part: Part) -> Option<Mismatch>
    requires old { IsSide old }
    requires new { HasPart (described set.now) part }
    ensures { result ≡ part_mismatch rule old.entry (described set.now) part }
{
    let new = Side {
        set,
        part,
        version: old.version,
    };
    if !is_version_of(desc_of(new), old.version) {
        return Some(Mismatch {
            rule,
            in_old: here(old.part),
            in_new: here(part),
        });
    }
    compare_descs(old, new)
}

fn is_version_of(desc: &Desc, version: u32) -> bool
    ensures { result ≡ is_version_of (desc_of desc.now) version }
{
    desc.minimum <= version && version <= desc.version
}

// ---- subsections

// Compares the subsections of the old device with those of the new one.
fn compare_subs(old: &DescSet, new: &DescSet, in_old: u32, in_new: u32) -> Option<Mismatch>
    requires { HaveDevices old.now new.now in_old in_new }
    ensures { result ≡ subs_mismatch old.now new.now in_old in_new }
{
    let mut number = 0;
    while number < old.device(in_old).subs.as_slice().len() {
        if let Some(mismatch) = compare_sub(old, new, in_old, in_new, number as u32) {
            return Some(mismatch);
        }
        number += 1;
    }
    None
}

fn compare_sub(
    old: &DescSet,
    new: &DescSet,
    in_old: u32,
    in_new: u32,
    number: u32,
) -> Option<Mismatch>
    requires { HaveSub old.now new.now in_old in_new number }
    ensures { result ≡ sub_mismatch old.now new.now in_old in_new number }
{
    let part = Part::Sub(in_old, number);
    let name = old.desc(part).name.as_bytes();
    match find_sub(new.device(in_new).subs.as_slice(), name) {
        Some(found) => {
            let other = Part::Sub(in_new, found);
            compare_parts(14, at_own_version(old, part), new, other)
        }
        None => Some(Mismatch {
            rule: 13,
            in_old: here(part),
            in_new: here(Part::Device(in_new)),
        }),
    }
}
