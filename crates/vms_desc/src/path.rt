// The cell of a path.
ghost use Rattle.vms_spec.specs.declared.TheConstants.{MOST_ITEMS};
ghost use Rattle.std.specs.Prelude.{◌≡◌, ◌≤◌, ◌+◌, length, map, Some, None, MatchOption};
ghost use Rattle.vms_spec.specs.Places.{path_at, cell_at};
ghost use Rattle.vms_parts.specs.Sizes.{fields_size};
ghost use Rattle.vms_parts.specs.Views.{field_of, desc_of, device_of, set_of};
ghost use Rattle.vms_desc.specs.Described.{described};
ghost use Rattle.vms_desc.specs.Paths.{element_of, begin_desc, Begins, Enters, IsPlaced};
ghost use Rattle.vms_parts.specs.declared.sizes.Measure.TheVariants.{Cells};

use crate::{Desc, DescSet, Device, Parts};
use vms_kinds::Item;
use vms_parts::{Measure, capacity, item_size, size_of_fields, size_of_subs};

// A description whose first cell is `base`, and the numbers of cells of the structures that it may
// use.
#[derive(Clone, Copy)]
pub(crate) struct Placed<'a> {
    pub(crate) desc: &'a Desc,
    pub(crate) base: u32,
    pub(crate) sizes: &'a [u32],
}

// The target of a step of a path: an item, and its first cell.
#[derive(Clone, Copy)]
pub(crate) struct Element {
    pub(crate) item: Item,
    pub(crate) cell: u32,
}

impl DescSet {
    /// Returns the cell of `path` in device `device`, or in its subsection `part`. It is `None`
    /// exactly if there is no such cell.
    ///
    /// Each step of the path is the number of a field and the number of an element. The element of
    /// a single item is 0.
    pub fn cell(&self, device: u32, part: Option<u32>, path: &[(u32, u32)]) -> Option<u32>
        ensures { result ≡ cell_at (described self.now) device part path.now }
    {
        let device = self.parts().devices.as_slice().get(device as usize)?;
        let placed = placed_at(device, part, self.sizes.as_slice())?;
        path_cell(self.parts(), placed, path)
    }
}

// Returns the fields of a device, or those of a subsection.
fn placed_at<'a>(device: &'a Device, part: Option<u32>, sizes: &'a [u32]) -> Option<Placed<'a>>
    ensures { MatchOption result (begin_desc (device_of device.now) part ≡ None)
        (Begins sizes.now (device_of device.now) part) }
{
    match part {
        None => Some(Placed {
            desc: &device.desc,
            base: 0,
            sizes,
        }),
        Some(number) => {
            let subs = device.subs.as_slice();
            let sub = subs.get(number as usize)?;
            let own = size_of_fields(Measure::Cells, sizes, device.desc.fields.as_slice());
            let base = own.saturating_add(size_of_subs(
                Measure::Cells,
                sizes,
                &subs[..number as usize],
            ));
            Some(Placed {
                desc: &sub.desc,
                base,
                sizes,
            })
        }
    }
}

// Returns the cell of a path in a description.
fn path_cell(parts: &Parts, placed: Placed, path: &[(u32, u32)]) -> Option<u32>
    requires { IsPlaced (set_of parts.now) placed }
    ensures { result ≡ path_at (set_of parts.now) path.now (length placed.entry.sizes.now)
        (Some (desc_of placed.entry.desc.now)) placed.entry.base }
{
    let (first, rest) = path.split_first()?;
    let element = element_at(placed, *first)?;
    match element.item {
        Item::Num(_) if rest.is_empty() => Some(element.cell),
        Item::Struct(number) => {
            let inner = structure(parts, placed.sizes, number, element.cell)?;
            path_cell(parts, inner, rest)
        }
        _ => None,
    }
}

// Returns the element of a step, which is the number of a field and the number of an element.
fn element_at(placed: Placed, step: (u32, u32)) -> Option<Element>
    requires { placed.base
        + fields_size Cells placed.sizes.now (map field_of placed.desc.now.fields) ≤ MOST_ITEMS }
    ensures { result ≡ element_of placed.entry.sizes.now (desc_of placed.entry.desc.now)
        placed.entry.base step }
{
    let fields = placed.desc.fields.as_slice();
    let field = fields.get(step.0 as usize)?;
    if step.1 >= capacity(field.count) {
        return None;
    }
    let size = item_size(Measure::Cells, placed.sizes, field.item);
    let before = size_of_fields(Measure::Cells, placed.sizes, &fields[..step.0 as usize]);
    Some(Element {
        item: field.item,
        cell: placed.base + before + step.1 * size,
    })
}

// Returns the structure of this number, if it may be used.
fn structure<'a>(parts: &'a Parts, sizes: &'a [u32], number: u32, base: u32) -> Option<Placed<'a>>
    requires { length sizes.now ≤ length parts.now.structs }
    ensures { MatchOption result (length sizes.now ≤ number)
        (Enters (map desc_of parts.now.structs) sizes.now number base) }
{
    let number = number as usize;
    if number >= sizes.len() {
        return None;
    }
    Some(Placed {
        desc: &parts.structs.as_slice()[number],
        base,
        sizes: &sizes[..number],
    })
}
