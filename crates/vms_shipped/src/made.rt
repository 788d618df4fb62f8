// The parts that the rows of the tables describe.
ghost use Rattle.std.specs.Prelude.{◌≡◌, ◌++◌, map, option_map, IfOk, OnOk};
ghost use Rattle.vms_fields.specs.Fields.{name_at, former_at, is_set, field_of_row, listed_at, fields_at};
ghost use Rattle.vms_parts.specs.Views.{formula, formula_in, field_of, desc_of, device_of, sub_of, set_of};
ghost use Rattle.vms_spec.specs.Shipped.{desc};
ghost use Rattle.vms_shipped.specs.Rows.{listed_row, field_in, fields_in, all_in, desc_in, asked_in, needed_in, sub_in, device_in, set_in};

use crate::rows::{Asked, DescRow, DeviceRow, FieldRow, Needed, Rows, SetRow, SubRow};
use std::alloc::Global;
use vms_fields::Row;
use vms_io::NoMemory;
use vms_kinds::Item;
use vms_parts::{Desc, Device, Field, Listed, Parts, Rel, Sub, Test, Text, Whose};

fn text(alloc: Global, bytes: &str) -> Result<Text, NoMemory>
    ensures { IfOk result (λ t. t ≡ bytes.now) }
{
    Ok(Text::copied(alloc, bytes)?)
}

// Returns a text for each of the names.
fn texts(alloc: Global, names: &[&str]) -> Result<Listed<Text>, NoMemory>
    ensures { IfOk result (λ made. made ≡ map (λ n. n.now) names.now) }
{
    let mut made = Vec::with_capacity(alloc, names.len())?;
    for name in names {
        made.push(text(alloc, name)?)?;
    }
    Ok(Listed::new(made))
}

// Returns the test of a field of the description itself.
fn test(asked: Asked) -> Test
    ensures { formula result ≡ asked_in asked }
{
    let (field, mask, rel, value) = asked;
    Test::Cell {
        whose: Whose::Own,
        field,
        mask,
        rel,
        value,
    }
}

fn boxed(alloc: Global, asked: Option<Asked>) -> Result<Option<Box<Test>>, NoMemory>
    ensures { IfOk result (λ made. option_map formula_in made ≡ option_map asked_in asked) }
{
    match asked {
        Some(asked) => Ok(Some(Box::new(alloc, test(asked))?)),
        None => Ok(None),
    }
}

fn field(alloc: Global, row: &FieldRow) -> Result<Field, NoMemory>
    ensures { IfOk result (λ f. field_of f ≡ field_in row.now) }
{
    Ok(Field {
        name: text(alloc, row.name)?,
        former: Listed::new(Vec::new(alloc)),
        item: row.item,
        count: row.count,
        since: 0,
        test: None,
        default: 0,
    })
}

// Returns the name and the former names of a field at a version.
fn names_at(
    version: u32,
    name: &'static str,
    former: &'static [&'static str],
    named: u32,
) -> (&'static str, &'static [&'static str])
    ensures name { result.0.now ≡ name_at version named name.now (map (λ n. n.now) former.now) }
    ensures former { map (λ n. n.now) result.1.now ≡ former_at version named (map (λ n. n.now) former.now) }
{
    if named <= version {
        return (name, former);
    }
    match former {
        [first, ..] => (*first, &[]),
        [] => ("", &[]),
    }
}

// Returns the test of a field that the flag `held_by` holds, if one does.
fn held(held_by: Option<u32>) -> Option<Asked>
    ensures { option_map asked_in result ≡ option_map is_set held_by }
{
    match held_by {
        Some(field) => Some((field, 1, Rel::Eq, 1)),
        None => None,
    }
}

// Returns the field of a row of a device's list at `version`.
fn listed(alloc: Global, row: &Row, version: u32) -> Result<Field, NoMemory>
    ensures { IfOk result (λ f. field_of f ≡ field_of_row version (listed_row row.now)) }
{
    let shape = &row.2;
    let (name, former) = names_at(version, row.0, row.1, shape.named);
    Ok(Field {
        name: text(alloc, name)?,
        former: texts(alloc, former)?,
        item: Item::Num(shape.kind),
        count: shape.count,
        since: shape.since,
        test: boxed(alloc, held(shape.held_by))?,
        default: shape.default,
    })
}

// Appends the field of a row of a device's list to `fields`, if `version` has it in `part`.
fn put_listed(
    alloc: Global,
    fields: &mut Vec<Field>,
    row: &Row,
    version: u32,
    part: u8,
) -> Result<(), NoMemory>
    ensures { OnOk result (map field_of fields.new.items
        ≡ map field_of fields.old.items ++ listed_at version part (listed_row row.now)) }
{
    if row.2.since <= version && row.2.part == part {
        fields.push(listed(alloc, row, version)?)?;
    }
    Ok(())
}

// Appends the fields of a device's list that `version` has in `part` to `fields`.
fn put_list(
    alloc: Global,
    fields: &mut Vec<Field>,
    rows: &'static [Row],
    version: u32,
    part: u8,
) -> Result<(), NoMemory>
    ensures { OnOk result (map field_of fields.new.items
        ≡ map field_of fields.old.items ++ fields_at version part (map listed_row rows.now)) }
{
    for row in rows {
        put_listed(alloc, fields, row, version, part)?;
    }
    Ok(())
}

// Appends the fields of a row of a description at `version`.
fn put(alloc: Global, fields: &mut Vec<Field>, rows: &Rows, version: u32) -> Result<(), NoMemory>
    ensures { OnOk result (map field_of fields.new.items
        ≡ map field_of fields.old.items ++ fields_in version rows.now) }
{
    match rows {
        Rows::One(row) => Ok(fields.push(field(alloc, row)?)?),
        Rows::Of(rows, part) => put_list(alloc, fields, *rows, version, *part),
    }
}

// Returns a capacity for the fields of the rows. A device's list counts whole, whatever its version.
fn most_fields(rows: &[Rows]) -> usize {
    let mut most: usize = 0;
    for row in rows {
        most = most.saturating_add(match row {
            Rows::One(_) => 1,
            Rows::Of(rows, _) => rows.len(),
        });
    }
    most
}

fn fields(alloc: Global, rows: &[Rows], version: u32) -> Result<Listed<Field>, NoMemory>
    ensures { IfOk result (λ fields. map field_of fields ≡ all_in version rows.now) }
{
    let mut fields = Vec::with_capacity(alloc, most_fields(rows))?;
    for row in rows {
        put(alloc, &mut fields, row, version)?;
    }
    Ok(Listed::new(fields))
}

fn desc(alloc: Global, name: &str, version: u32, rows: &[Rows]) -> Result<Desc, NoMemory>
    ensures { IfOk result (λ d. desc_of d ≡ desc name.now version (all_in version rows.now)) }
{
    Ok(Desc {
        name: text(alloc, name)?,
        version,
        minimum: 1,
        fields: fields(alloc, rows, version)?,
        validate: Listed::new(Vec::new(alloc)),
    })
}

fn descs(alloc: Global, rows: &[DescRow]) -> Result<Listed<Desc>, NoMemory>
    ensures { IfOk result (λ descs. map desc_of descs ≡ map desc_in rows.now) }
{
    let mut descs = Vec::with_capacity(alloc, rows.len())?;
    for row in rows {
        descs.push(desc(alloc, row.name, row.version, row.rows)?)?;
    }
    Ok(Listed::new(descs))
}

fn needed(alloc: Global, needed: Needed) -> Result<Test, NoMemory>
    ensures { IfOk result (λ t. formula t ≡ needed_in needed) }
{
    match needed {
        Needed::Only(asked) => Ok(test(asked)),
        Needed::Either(one, other) => {
            let one = Box::new(alloc, test(one))?;
            let other = Box::new(alloc, test(other))?;
            Ok(Test::Or(one, other))
        }
    }
}

fn sub(alloc: Global, row: &SubRow) -> Result<Sub, NoMemory>
    ensures { IfOk result (λ s. sub_of s ≡ sub_in row.now) }
{
    let (name, rows, sent) = *row;
    Ok(Sub {
        desc: desc(alloc, name, 1, rows)?,
        needed: needed(alloc, sent)?,
    })
}

fn subs(alloc: Global, rows: &[SubRow]) -> Result<Listed<Sub>, NoMemory>
    ensures { IfOk result (λ subs. map sub_of subs ≡ map sub_in rows.now) }
{
    let mut subs = Vec::with_capacity(alloc, rows.len())?;
    for row in rows {
        subs.push(sub(alloc, row)?)?;
    }
    Ok(Listed::new(subs))
}

fn device(alloc: Global, row: &DeviceRow) -> Result<Device, NoMemory>
    ensures { IfOk result (λ d. device_of d ≡ device_in row.now) }
{
    Ok(Device {
        instance: row.instance,
        desc: desc(alloc, row.name, row.version, row.rows)?,
        subs: subs(alloc, row.subs)?,
    })
}

fn devices(alloc: Global, rows: &[DeviceRow]) -> Result<Listed<Device>, NoMemory>
    ensures { IfOk result (λ devices. map device_of devices ≡ map device_in rows.now) }
{
    let mut devices = Vec::with_capacity(alloc, rows.len())?;
    for row in rows {
        devices.push(device(alloc, row)?)?;
    }
    Ok(Listed::new(devices))
}

/// Returns the parts of a set.
///
/// # Errors
///
/// - [`NoMemory`]: out of memory.
pub(crate) fn parts(alloc: Global, row: &SetRow) -> Result<Parts, NoMemory>
    ensures { IfOk result (λ parts. set_of parts ≡ set_in row.now) }
{
    Ok(Parts {
        machines: texts(alloc, row.machines)?,
        structs: descs(alloc, row.structs)?,
        devices: devices(alloc, row.devices)?,
    })
}
