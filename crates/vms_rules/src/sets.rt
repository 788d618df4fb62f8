// The rules at a set, and the whole walk.
ghost use Rattle.std.specs.Prelude.{◌≡◌, ◌&&◌, IfOk, length, map, nat_le};
ghost use Rattle.vms_spec.specs.WellFormed.{first_fault, set_rules, size_rules, devices_items};
ghost use Rattle.vms_parts.specs.Sizes.{in_u32};
ghost use Rattle.vms_parts.specs.Views.{device_of, set_of};
ghost use Rattle.vms_rules.specs.Judged.{Judges};

use crate::DescFault;
use crate::descs::here;
use crate::devices::check_devices;
use crate::fault::lowest;
use crate::names::{add_names, are_names};
use crate::structs::check_structs;
use std::alloc::{AllocError, Global};
use std::collections::BTreeSet;
use vms_parts::{Device, Measure, Part, Parts, size_of_fields, size_of_subs, struct_sizes};
use vms_spec::MOST_ITEMS;

/// Checks that the `parts` of a description set are well formed.
///
/// # Errors
///
/// - [`DescFault::IllFormed`]: the first place at which a rule of well-formed sets fails, with the
///   lowest rule that fails there.
/// - [`DescFault::NoMemory`]: out of memory.
pub fn check(alloc: Global, parts: &Parts) -> Result<(), DescFault>
    ensures { Judges (first_fault (set_of parts.now)) result }
{
    let place = here(Part::Set);
    lowest(set_rules(alloc, parts)?, place)?;
    check_structs(alloc, parts.structs.as_slice())?;
    check_devices(alloc, parts)?;
    lowest(size_rules(alloc, parts)?, place)
}

// Returns the rules at the set itself, without its number of items.
fn set_rules(alloc: Global, parts: &Parts) -> Result<[bool; 8], AllocError>
    ensures { IfOk result (λ rules. rules ≡ set_rules (set_of parts.now)) }
{
    let machines = parts.machines.as_slice();
    let mut names = BTreeSet::new(alloc);
    let are_new = add_names(&mut names, machines)?;
    Ok([
        are_names(64, machines),
        are_new,
        true,
        true,
        true,
        true,
        has_few_parts(parts),
        true,
    ])
}

// Returns whether a set has at most 16 machines, 64 structures and 64 devices.
fn has_few_parts(parts: &Parts) -> bool
    ensures { result ≡ (nat_le (length (set_of parts.now).machines) 16
        && nat_le (length (set_of parts.now).structs) 64
        && nat_le (length (set_of parts.now).devices) 64) }
{
    parts.machines.as_slice().len() <= 16
        && parts.structs.as_slice().len() <= 64
        && parts.devices.as_slice().len() <= 64
}

// Returns the rules at the set again, for its number of items.
fn size_rules(alloc: Global, parts: &Parts) -> Result<[bool; 8], AllocError>
    ensures { IfOk result (λ rules. rules ≡ size_rules (set_of parts.now)) }
{
    let sizes = struct_sizes(alloc, Measure::Items, parts.structs.as_slice())?;
    let items = devices_items(sizes.as_slice(), parts.devices.as_slice());
    Ok([
        true,
        true,
        true,
        true,
        true,
        true,
        items <= MOST_ITEMS,
        true,
    ])
}

// Returns the number of items of the devices, at most 2^32 - 1.
fn devices_items(sizes: &[u32], devices: &[Device]) -> u32
    ensures { result ≡ in_u32 (devices_items sizes.now (map device_of devices.now)) }
{
    let mut sum: u32 = 0;
    for device in devices {
        let own = size_of_fields(Measure::Items, sizes, device.desc.fields.as_slice());
        let subs = size_of_subs(Measure::Items, sizes, device.subs.as_slice());
        sum = sum.saturating_add(own).saturating_add(subs);
    }
    sum
}
