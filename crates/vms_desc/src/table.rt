// Tables of descriptions, which walks use often. They are computed once.
ghost use Rattle.std.specs.Prelude.{◌<◌, map, IfOk, OnOk};
ghost use Rattle.vms_parts.specs.Views.{field_of, desc_of, device_of};
ghost use Rattle.vms_desc.specs.Heads.{FitsHead, HeadsFit};
ghost use Rattle.vms_desc.specs.Tables.{AreStarts, IsTable, AreTables, AreDeviceTables, device_fields};

use std::alloc::{AllocError, Global};
use vms_parts::{Desc, Device, Field, Listed, Measure, capacity, item_size, least_capacities};

// The table of one description.
#[derive(Drop)]
pub(crate) struct Table {
    // The first cell of each field, and last the end of all cells, at most 2^32 - 1.
    pub(crate) starts: Listed<u32>,
    // The least capacity of the arrays whose elements each field counts.
    pub(crate) mosts: Listed<Option<u32>>,
}

fn table_of(alloc: Global, sizes: &[u32], fields: &[Field]) -> Result<Table, AllocError>
    ensures { IfOk result (λ table. IsTable sizes.now (map field_of fields.now) table) }
{
    let starts = starts(alloc, sizes, fields)?;
    let mosts = least_capacities(alloc, fields)?;
    Ok(Table {
        starts: Listed::new(starts),
        mosts: Listed::new(mosts),
    })
}

fn starts(alloc: Global, sizes: &[u32], fields: &[Field]) -> Result<Vec<u32>, AllocError>
    ensures { IfOk result (λ starts. AreStarts sizes.now (map field_of fields.now) starts.items) }
{
    let mut starts = Vec::with_capacity(alloc, fields.len() + 1)?;
    let mut sum: u32 = 0;
    starts.push(sum)?;
    for field in fields {
        let size = item_size(Measure::Cells, sizes, field.item);
        sum = sum.saturating_add(capacity(field.count).saturating_mul(size));
        starts.push(sum)?;
    }
    Ok(starts)
}

// Returns the table of each structure.
pub(crate) fn struct_tables(
    alloc: Global,
    sizes: &[u32],
    structs: &[Desc],
) -> Result<Vec<Table>, AllocError>
    ensures { IfOk result (λ tables.
        AreTables sizes.now (map (λ d. d.fields) (map desc_of structs.now)) tables.items) }
{
    let mut tables = Vec::with_capacity(alloc, structs.len())?;
    for desc in structs {
        tables.push(table_of(alloc, sizes, desc.fields.as_slice())?)?;
    }
    Ok(tables)
}

// Returns the tables of a device: its own, and then each subsection's. By their types, its numbers
// fit their heads.
fn part_tables(alloc: Global, sizes: &[u32], device: &Device) -> Result<Vec<Table>, AllocError>
    ensures tables { IfOk result (λ tables.
        AreTables sizes.now (device_fields (device_of device.now)) tables.items) }
    ensures heads { OnOk result (FitsHead (device_of device.now)) }
{
    let _instance = device.instance;
    let _version = device.desc.version;
    let mut tables = Vec::new(alloc);
    tables.push(table_of(alloc, sizes, device.desc.fields.as_slice())?)?;
    for sub in device.subs.as_slice() {
        let _version = sub.desc.version;
        tables.push(table_of(alloc, sizes, sub.desc.fields.as_slice())?)?;
    }
    Ok(tables)
}

pub(crate) fn device_tables(
    alloc: Global,
    sizes: &[u32],
    devices: &[Device],
) -> Result<Vec<Listed<Table>>, AllocError>
    ensures tables { IfOk result (λ tables.
        AreDeviceTables sizes.now (map device_of devices.now) tables.items) }
    ensures heads { OnOk result (HeadsFit (map device_of devices.now)) }
{
    let mut tables = Vec::with_capacity(alloc, devices.len())?;
    for device in devices {
        tables.push(Listed::new(part_tables(alloc, sizes, device)?))?;
    }
    Ok(tables)
}
