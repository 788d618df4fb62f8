// Prints the path of a cell.
ghost use Rattle.std.specs.Prelude.{◌<◌, ◌++◌, length};
ghost use Rattle.vms_io.specs.Told.{outlet};
ghost use Rattle.vms_io.specs.Writing.{Wrote};
ghost use Rattle.vms_spec.specs.Layout.{device_cells};
ghost use Rattle.vms_desc.specs.Described.{described, device_at};
ghost use Rattle.vms_elements.specs.Parts.{cell_name};
ghost use Rattle.vms_values.specs.Naming.{HasCell, HasElement, HasName, IsOwn, element_name, name_at};
ghost use Rattle.vms_values.specs.Paths.{path_text};

use crate::path::{Path, write_path};
use vms_desc::{DescSet, Field, Part};
use vms_io::{Failed, Sink, WriteFault};
use vms_kinds::Item;

/// Writes the path of cell `cell` of device `device` to `sink`, as it is in the values text.
///
/// A path is the names of fields joined by dots; an element of an array has its number in brackets.
/// After an error only a beginning of it has been written.
///
/// # Errors
///
/// - [`WriteFault`]: the sink failed.
///
/// # Requires
///
/// The set has the device, and the device has the cell.
pub fn print_path<K: Sink>(
    set: &DescSet,
    device: u32,
    cell: u32,
    sink: &mut K,
) -> Result<(), WriteFault>
    requires is_device { device < length (described set.now).devices }
    requires is_cell { let set = described set.now in
        cell < length (device_cells set (device_at set device)) }
    ensures { let set = described set.now in
        let text = cell_name set (device_at set device) cell in
        Wrote (outlet K.Sink sink.old) (outlet K.Sink sink.new) text result }
{
    let own = part_of(set, device, cell);
    match print_name(set, own.part, own.cell, &Path::Top, sink) {
        Ok(()) => Ok(()),
        Err(_) => Err(WriteFault),
    }
}

/// A part of a device, and the number of one of its cells.
#[derive(Clone, Copy)]
struct Own {
    part: Part,
    cell: u32,
}

// Returns the part that cell `cell` of `device` is in: the device's own fields, or a subsection.
fn part_of(set: &DescSet, device: u32, cell: u32) -> Own
    requires { HasCell set.now device cell }
    ensures { IsOwn set.now device cell result }
{
    let own = Part::Device(device);
    let size = set.cells_of(own);
    if cell < size {
        return Own { part: own, cell };
    }
    let mut left = cell - size;
    for sub in 0..set.sub_count(device) {
        let part = Part::Sub(device, sub);
        let size = set.cells_of(part);
        if left < size {
            return Own { part, cell: left };
        }
        left -= size;
    }
    unreachable!()
}

// Prints the path of a cell of a part, after `path`.
#[cycle(name)]
fn print_name<K: Sink>(
    set: &DescSet,
    part: Part,
    cell: u32,
    path: &Path,
    sink: &mut K,
) -> Result<(), Failed>
    requires { HasName set.now part cell }
    ensures { let text = path_text path.now ++ name_at set.now part cell in
        Wrote (outlet K.Sink sink.old) (outlet K.Sink sink.new) text result }
{
    let mut left = cell;
    for field in 0..set.field_count(part) {
        let size = set.field_cells(part, field);
        if left < size {
            let described = &set.desc(part).fields.as_slice()[field as usize];
            return print_element(set, described, left, path, sink);
        }
        left -= size;
    }
    unreachable!()
}

// Prints the path of a cell of a field.
#[cycle(name)]
fn print_element<K: Sink>(
    set: &DescSet,
    field: &Field,
    cell: u32,
    path: &Path,
    sink: &mut K,
) -> Result<(), Failed>
    requires { HasElement set.now field.now cell }
    ensures { let text = path_text path.now ++ element_name set.now field.now cell in
        Wrote (outlet K.Sink sink.old) (outlet K.Sink sink.new) text result }
{
    let size = set.item_cells(field.item);
    let (index, rest) = (cell / size, cell % size);
    let path = Path::Field {
        before: &*path,
        field,
        index,
    };
    match field.item {
        Item::Struct(number) => {
            let part = Part::Struct(number);
            print_name(set, part, rest, &Path::Inside(&path), sink)
        }
        _ => write_path(sink, &path),
    }
}
