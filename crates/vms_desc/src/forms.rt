// The cells of a device, laid out.
ghost use Rattle.std.specs.Prelude.{◌≡◌, ◌≤◌, ◌-◌, ◌++◌, ◌∷◌, [], length, take, drop, map, OnOk, IfOk};
ghost use Rattle.vms_parts.specs.declared.types.CellForm.{CellForm};
ghost use Rattle.vms_spec.specs.Layout.{times};
ghost use Rattle.vms_desc.specs.Put.{AreForms, CanRepeat, Puts};
ghost use Rattle.vms_desc.specs.Forms.{item_forms, field_forms, fields_forms, subs_forms, device_forms, structs_forms};
ghost use Rattle.vms_parts.specs.Views.{desc_of, field_of, sub_of, device_of};

use crate::{Desc, Device, Field, Sub};
use std::alloc::{AllocError, Global};
use vms_kinds::{Item, Kind};
use vms_parts::{Measure, capacity, size_of_fields, size_of_subs};

// Parts of a list from this length on are repeated piece by piece.
const LONG_PART: usize = 32;

// The most elements of a piece. Their defaults take less than 2,048 bytes; above that, memcpy goes
// byte by byte.
const PIECE: usize = 120;

// The forms of cells, in order: the kind and the default of each. Two lists take half of the memory
// of a list of `CellForm`.
#[derive(Drop)]
pub(crate) struct Forms {
    pub(crate) kinds: Vec<Kind>,
    pub(crate) defaults: Vec<i128>,
}

impl Forms {
    // Appends the form of one cell.
    #[inline(always)]
    fn put(&mut self, kind: Kind, default: i128) -> Result<(), AllocError>
        ensures { let form : CellForm = record { kind = kind; default = default } in
            OnOk result (Puts self.old self.new (form ∷ [])) }
    {
        self.kinds.push(kind)?;
        self.defaults.push(default)?;
        Ok(())
    }
}

// Appends the forms of the cells of these fields. `structs` are the structures that they may use.
#[cycle(forms)]
pub(crate) fn put_fields(
    structs: &[Desc],
    fields: &[Field],
    forms: &mut Forms,
) -> Result<(), AllocError>
    ensures { OnOk result (Puts forms.old forms.new
        (fields_forms (structs_forms structs.now) (map field_of fields.now))) }
{
    for field in fields {
        put_field(structs, field, forms)?;
    }
    Ok(())
}

#[cycle(forms)]
#[inline(always)]
fn put_field(structs: &[Desc], field: &Field, forms: &mut Forms) -> Result<(), AllocError>
    ensures { OnOk result (Puts forms.old forms.new
        (field_forms (structs_forms structs.now) (field_of field.now))) }
{
    let count = capacity(field.count);
    if count == 0 {
        return Ok(());
    }
    let (kinds, defaults) = (forms.kinds.len(), forms.defaults.len());
    put_element(structs, field, forms)?;
    repeat(&mut forms.kinds, kinds, count)?;
    repeat(&mut forms.defaults, defaults, count)?;
    Ok(())
}

// Repeats the part of a list from `start` on, so that it is there `count` times.
#[inline(always)]
fn repeat<T: Copy>(list: &mut Vec<T>, start: usize, count: u32) -> Result<(), AllocError>
    requires { CanRepeat start count list.old.items }
    ensures { let part = drop start list.old.items in
        OnOk result
        (list.new.items ≡ take start list.old.items ++ times count (λ _. part) 0 0) }
{
    let size = list.len() - start;
    let mut done = 1;
    while done < count {
        let more = done.min(count - done);
        append_again(list, start, start + size * more as usize)?;
        done += more;
    }
    Ok(())
}

// Appends the part of a list between two places again. A long part goes through a list of its own,
// piece by piece and not element by element.
fn append_again<T: Copy>(list: &mut Vec<T>, start: usize, end: usize) -> Result<(), AllocError>
    requires order { start ≤ end }
    requires within { end ≤ length list.old.items }
    ensures { let part = take (end - start) (drop start list.old.items) in
        OnOk result (list.new.items ≡ list.old.items ++ part) }
{
    if end - start < LONG_PART {
        return list.extend_from_within(start..end);
    }
    let mut piece = Vec::new(*list.allocator());
    let mut done = start;
    while done < end {
        let next = done + PIECE.min(end - done);
        piece.clear();
        piece.extend_from_slice(&list[done..next])?;
        list.extend_from_slice(&piece)?;
        done = next;
    }
    Ok(())
}

#[cycle(forms)]
#[inline(always)]
fn put_element(structs: &[Desc], field: &Field, forms: &mut Forms) -> Result<(), AllocError>
    ensures { OnOk result (Puts forms.old forms.new
        (item_forms (structs_forms structs.now) field.now.item field.now.default)) }
{
    match field.item {
        Item::Num(kind) => forms.put(kind, field.default)?,
        Item::Equal { .. } | Item::Unused { .. } => {}
        Item::Struct(number) => {
            let number = number as usize;
            if number < structs.len() {
                put_fields(&structs[..number], structs[number].fields.as_slice(), forms)?;
            }
        }
    }
    Ok(())
}

fn put_subs(structs: &[Desc], subs: &[Sub], forms: &mut Forms) -> Result<(), AllocError>
    ensures { OnOk result (Puts forms.old forms.new
        (subs_forms (structs_forms structs.now) (map sub_of subs.now))) }
{
    for sub in subs {
        put_fields(structs, sub.desc.fields.as_slice(), forms)?;
    }
    Ok(())
}

// Returns the forms of a device's cells: those of its fields, then those of each subsection.
// `sizes` has the number of cells of each structure.
pub(crate) fn device_cells(
    alloc: Global,
    sizes: &[u32],
    structs: &[Desc],
    device: &Device,
) -> Result<Forms, AllocError>
    ensures { IfOk result (λ forms. AreForms forms
        (device_forms (structs_forms structs.now) (device_of device.now))) }
{
    let (fields, subs) = (device.desc.fields.as_slice(), device.subs.as_slice());
    let own = size_of_fields(Measure::Cells, sizes, fields);
    let cells = own.saturating_add(size_of_subs(Measure::Cells, sizes, subs));
    let mut forms = Forms {
        kinds: Vec::with_capacity(alloc, cells as usize)?,
        defaults: Vec::with_capacity(alloc, cells as usize)?,
    };
    put_fields(structs, fields, &mut forms)?;
    put_subs(structs, subs, &mut forms)?;
    Ok(forms)
}
