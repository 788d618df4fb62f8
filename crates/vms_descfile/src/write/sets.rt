// The files of descriptions, devices and sets.
ghost use Rattle.std.specs.Prelude.{◌≡◌, map, IfOk, OnOk};
ghost use Rattle.serde_json.specs.Data.{object};
ghost use Rattle.serde_json.specs.View.{view, members_view};
ghost use Rattle.vms_parts.specs.Views.{field_of, desc_of, sub_of, device_of, set_of};
ghost use Rattle.vms_descfile.specs.Fitting.{FitsDesc, FitsSub, FitsDevice, FitsWhole, FitsSet};
ghost use Rattle.vms_descfile.specs.Written.{own_names, desc_members, struct_file, sub_file, whole_file, device_file, set_file};

use super::fields::FieldFile;
use super::tests::TestFile;
use super::values::{
    Members, TextFile, Writes, natural_value, put, put_items, put_list, put_text, put_unless,
};
use serde_json::{Map, Value};
use std::alloc::{AllocError, Global};
use vms_parts::{Desc, Device, Field, Parts, Sub};

fn desc_members(alloc: Global, desc: &Desc) -> Result<Members, AllocError>
    ensures file { IfOk result (λ m. members_view m.entries ≡ desc_members (desc_of desc.now)) }
    ensures fits { OnOk result (FitsDesc (desc_of desc.now)) }
{
    let own = desc.fields.as_slice();
    let mut members = Map::new(alloc);
    put_items(alloc, &mut members, "fields", &FieldFile(own), own)?;
    let minimum = natural_value(desc.minimum as u64);
    put_unless(
        alloc,
        &mut members,
        desc.minimum == desc.version,
        "minimum",
        minimum,
    )?;
    put_text(alloc, &mut members, "name", desc.name.as_str())?;
    let test = TestFile { own, parent: &[] };
    put_list(
        alloc,
        &mut members,
        "validate",
        &test,
        desc.validate.as_slice(),
    )?;
    put(
        alloc,
        &mut members,
        "version",
        natural_value(desc.version as u64),
    )?;
    Ok(members)
}

#[derive(Clone, Copy)]
struct StructFile;

impl Writes<Desc> for StructFile {
    ghost file = { λ _ d. struct_file (desc_of d) };

    ghost fits = { λ _ d. FitsDesc (desc_of d) };

    fn write(&self, alloc: Global, item: &Desc) -> Result<Value, AllocError> {
        Ok(Value::Object(desc_members(alloc, item)?))
    }
}

// A writer of a subsection of a device with these fields.
#[derive(Clone, Copy)]
struct SubFile<'a>(&'a [Field]);

impl<'a> Writes<Sub> for SubFile<'a> {
    ghost file = { λ s sub. sub_file (own_names (map field_of s.0.now)) (sub_of sub) };

    ghost fits = { λ _ sub. FitsSub (sub_of sub) };

    fn write(&self, alloc: Global, item: &Sub) -> Result<Value, AllocError> {
        let mut members = desc_members(alloc, &item.desc)?;
        let test = TestFile {
            own: item.desc.fields.as_slice(),
            parent: self.0,
        };
        put(
            alloc,
            &mut members,
            "needed",
            test.write(alloc, &item.needed)?,
        )?;
        Ok(Value::Object(members))
    }
}

fn whole_value(alloc: Global, device: &Device) -> Result<Value, AllocError>
    ensures file { IfOk result (λ v. view v ≡ whole_file (device_of device.now)) }
    ensures fits { OnOk result (FitsWhole (device_of device.now)) }
{
    Ok(Value::Object(whole_members(alloc, device)?))
}

fn whole_members(alloc: Global, device: &Device) -> Result<Members, AllocError>
    ensures file { IfOk result (λ m. object (members_view m.entries)
        ≡ whole_file (device_of device.now)) }
    ensures fits { OnOk result (FitsWhole (device_of device.now)) }
{
    let mut members = desc_members(alloc, &device.desc)?;
    let sub = SubFile(device.desc.fields.as_slice());
    put_list(
        alloc,
        &mut members,
        "subsections",
        &sub,
        device.subs.as_slice(),
    )?;
    Ok(members)
}

#[derive(Clone, Copy)]
struct DeviceFile;

impl Writes<Device> for DeviceFile {
    ghost file = { λ _ d. device_file (device_of d) };

    ghost fits = { λ _ d. FitsDevice (device_of d) };

    fn write(&self, alloc: Global, item: &Device) -> Result<Value, AllocError> {
        let mut members = Map::new(alloc);
        put(alloc, &mut members, "desc", whole_value(alloc, item)?)?;
        put(
            alloc,
            &mut members,
            "instance",
            natural_value(item.instance as u64),
        )?;
        Ok(Value::Object(members))
    }
}

/// Returns the JSON value of the description file of a set of these `parts`.
///
/// # Errors
///
/// - [`AllocError`]: out of memory.
pub fn set_value(alloc: Global, parts: &Parts) -> Result<Value, AllocError>
    ensures file { IfOk result (λ v. view v ≡ set_file (set_of parts.now)) }
    ensures fits { OnOk result (FitsSet (set_of parts.now)) }
{
    Ok(Value::Object(set_members(alloc, parts)?))
}

fn set_members(alloc: Global, parts: &Parts) -> Result<Members, AllocError>
    ensures file { IfOk result (λ m. object (members_view m.entries)
        ≡ set_file (set_of parts.now)) }
    ensures fits { OnOk result (FitsSet (set_of parts.now)) }
{
    let mut members = Map::new(alloc);
    let devices = parts.devices.as_slice();
    put_items(alloc, &mut members, "devices", &DeviceFile, devices)?;
    let machines = parts.machines.as_slice();
    put_items(alloc, &mut members, "machines", &TextFile, machines)?;
    let structs = parts.structs.as_slice();
    put_items(alloc, &mut members, "structs", &StructFile, structs)?;
    Ok(members)
}
