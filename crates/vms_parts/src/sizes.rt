// The numbers of cells and of items of descriptions.
ghost use Rattle.std.specs.Prelude.{◌≡◌, length, map, get_or, IfOk};
ghost use Rattle.vms_spec.specs.Layout.{capacity_of};
ghost use Rattle.vms_parts.specs.Sizes.{in_u32, constant_size, size_of, fields_size, subs_size, sizes_to};
ghost use Rattle.vms_parts.specs.Views.{desc_of, field_of, sub_of};

use crate::{Count, Desc, Field, Sub};
use std::alloc::{AllocError, Global};
use vms_kinds::Item;

/// What a size counts. Constants and unused bytes are items and have no cell.
#[derive(Clone, Copy)]
pub enum Measure {
    /// Cells: the numbers of a state.
    Cells,
    /// Items: numbers, constants and unused bytes.
    Items,
}

/// Returns the number of elements for which a field with this `count` has cells.
pub fn capacity(count: Count) -> u32
    ensures { result ≡ capacity_of count }
{
    match count {
        Count::One => 1,
        Count::Fixed(length) => length,
        Count::Counted { capacity, .. } => capacity,
    }
}

/// Returns the size of one element of `item`, where `sizes` are those of the structures.
pub fn item_size(measure: Measure, sizes: &[u32], item: Item) -> u32
    ensures { result ≡ size_of measure sizes.now item }
{
    match item {
        Item::Num(_) => 1,
        Item::Equal { .. } | Item::Unused { .. } => constant_size(measure),
        Item::Struct(number) => at_or_zero(sizes, number),
    }
}

fn constant_size(measure: Measure) -> u32
    ensures { result ≡ constant_size measure }
{
    match measure {
        Measure::Cells => 0,
        Measure::Items => 1,
    }
}

fn at_or_zero(sizes: &[u32], number: u32) -> u32
    ensures { result ≡ get_or sizes.now number 0 }
{
    sizes.get(number as usize).copied().unwrap_or(0)
}

/// Returns the size of `fields`, at most 2^32 - 1, where `sizes` are those of the structures.
pub fn size_of_fields(measure: Measure, sizes: &[u32], fields: &[Field]) -> u32
    ensures { result ≡ in_u32 (fields_size measure sizes.now (map field_of fields.now)) }
{
    let mut sum: u32 = 0;
    for field in fields {
        let size = item_size(measure, sizes, field.item);
        sum = sum.saturating_add(capacity(field.count).saturating_mul(size));
    }
    sum
}

/// Returns the size of the fields of `subs`, at most 2^32 - 1, where `sizes` are those of the
/// structures.
pub fn size_of_subs(measure: Measure, sizes: &[u32], subs: &[Sub]) -> u32
    ensures { result ≡ in_u32 (subs_size measure sizes.now (map sub_of subs.now)) }
{
    let mut sum: u32 = 0;
    for sub in subs {
        let own = size_of_fields(measure, sizes, sub.desc.fields.as_slice());
        sum = sum.saturating_add(own);
    }
    sum
}

/// Returns the size of each of `structs`, at most 2^32 - 1.
///
/// # Errors
///
/// - [`AllocError`]: out of memory.
pub fn struct_sizes(
    alloc: Global,
    measure: Measure,
    structs: &[Desc],
) -> Result<Vec<u32>, AllocError>
    ensures { IfOk result (λ sizes.
        sizes.items ≡ map in_u32
        (sizes_to measure (map desc_of structs.now) (length structs.now))) }
{
    let mut sizes = Vec::with_capacity(alloc, structs.len())?;
    for desc in structs {
        sizes.push(size_of_fields(measure, &sizes, desc.fields.as_slice()))?;
    }
    Ok(sizes)
}
