// A set from parts: the machine `room` with one device, a lamp.
ghost use Rattle.std.specs.Prelude.{◌≡◌, IfOk, map};
ghost use Rattle.vms_desc.specs.Described.{described};
ghost use Rattle.vms_parts.specs.Views.{field_of, set_of};
ghost use Rattle.library_tour.specs.Lamps.{lamp_set, field as field_with, fields as fields_at};

use std::alloc::{AllocError, Global};
use vms_desc::{Count, Desc, DescFault, DescSet, Device, Field, Listed, Parts, Text};
use vms_kinds::{Item, Kind};

/// Returns the set with version `version` of the lamp's section: brightness and switch, and colour
/// from version 2 on.
///
/// # Errors
///
/// [`DescFault`] if memory runs out or the parts form no valid set.
pub fn lamp_set(alloc: Global, version: u32) -> Result<DescSet, DescFault>
    ensures { IfOk result (λ set. described set ≡ lamp_set version) }
{
    DescSet::new(alloc, parts(alloc, version)?)
}

fn parts(alloc: Global, version: u32) -> Result<Parts, AllocError>
    ensures { IfOk result (λ parts. set_of parts ≡ lamp_set version) }
{
    let desc = Desc {
        name: text(alloc, "lamp")?,
        version,
        minimum: 1,
        fields: Listed::new(fields(alloc, version)?),
        validate: Listed::new(Vec::new(alloc)),
    };
    let lamp = Device {
        instance: 0,
        desc,
        subs: Listed::new(Vec::new(alloc)),
    };
    Ok(Parts {
        machines: Listed::new(vec![in alloc; text(alloc, "room")?]?),
        structs: Listed::new(Vec::new(alloc)),
        devices: Listed::new(vec![in alloc; lamp]?),
    })
}

fn fields(alloc: Global, version: u32) -> Result<Vec<Field>, AllocError>
    ensures { IfOk result (λ fields. map field_of fields.items ≡ fields_at version) }
{
    let mut fields = Vec::new(alloc);
    fields.push(field(alloc, "brightness", Kind::U8, 1)?)?;
    fields.push(field(alloc, "on", Kind::Bool, 1)?)?;
    if version >= 2 {
        fields.push(field(alloc, "colour", Kind::U16, 2)?)?;
    }
    Ok(fields)
}

// Returns a field of one number, which is present from version `since` on.
fn field(alloc: Global, name: &str, kind: Kind, since: u32) -> Result<Field, AllocError>
    ensures { IfOk result (λ field. field_of field ≡ field_with name.now kind since) }
{
    Ok(Field {
        name: text(alloc, name)?,
        former: Listed::new(Vec::new(alloc)),
        item: Item::Num(kind),
        count: Count::One,
        since,
        test: None,
        default: 0,
    })
}

fn text(alloc: Global, text: &str) -> Result<Text, AllocError>
    ensures { IfOk result (λ made. made ≡ text.now) }
{
    Ok(Text::copied(alloc, text)?)
}
