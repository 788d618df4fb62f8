// One number of a device, raised above the newer set's capacity.
ghost use Rattle.std.specs.Prelude.{◌≡◌, map, slice_set, IfOk};
ghost use Rattle.std.specs.Bool.{OnTrue};
ghost use Rattle.vms_spec.specs.Layout.{counted};
ghost use Rattle.vms_spec.specs.Rules.{counts_well};
ghost use Rattle.vms_parts.specs.Views.{field_of};
ghost use Rattle.vms_counter_laws.specs.Candidates.{excess};
ghost use Rattle.vms_counter.specs.Calls.{HasDefault, HasDevice, IsRaised, IsRaisedAt, admits_in};
ghost use Rattle.vms_counter.specs.Raising.{counted_here, Fits, map_excess};

use std::alloc::Global;
use vms_check::least_absent;
use vms_desc::{Count, DescSet, Field};
use vms_image::Image;
use vms_io::NoMemory;

/// A field of an older description, and the newer set's capacity for what the field counts.
#[derive(Clone, Copy)]
pub(crate) struct Excess {
    /// The number of the field.
    pub field: u32,
    /// The capacity.
    pub room: u32,
}

/// A field's number and its count.
#[derive(Clone, Copy)]
pub(crate) struct Counting {
    /// The number of the field.
    pub number: u32,
    /// The count of the field.
    pub count: Count,
}

/// Returns the older field that counts, and the newer set's capacity for it, for two fields with
/// different capacities.
///
/// `fields` are those of the newer description at version `version`.
pub(crate) fn find_excess(
    fields: &[Field],
    version: u32,
    older: Counting,
    newer: Counting,
) -> Option<Excess>
    ensures { map_excess result ≡ excess version (map field_of fields.now) older.number older.count
        newer.number newer.count }
{
    match (older.count, newer.count) {
        (Count::Counted { by, .. }, Count::Counted { capacity, .. }) => Some(Excess {
            field: by,
            room: capacity,
        }),
        (Count::One, _) => match least_absent(fields, version, newer.number) {
            None => None,
            Some(room) => Some(Excess {
                field: older.number,
                room,
            }),
        },
        _ => None,
    }
}

// Checks whether a number is at most each capacity that the field counts.
fn is_within(fields: &[Field], number: u32, value: i128) -> bool
    ensures { result ≡ counts_well (counted number (map field_of fields.now)) value }
{
    for field in fields {
        if !holds(field.count, number, value) {
            return false;
        }
    }
    true
}

fn holds(count: Count, number: u32, value: i128) -> bool
    ensures { result ≡ counts_well (counted_here number count) value }
{
    match count {
        Count::Counted { by, capacity } if by == number => value <= i128::from(capacity),
        _ => true,
    }
}

// A field of a device, and the number to which it is raised.
#[derive(Clone, Copy)]
struct Raise {
    device: u32,
    field: u32,
    value: i128,
}

// Checks whether the number in this cell of the device's image can have the raised value.
fn admits(set: &DescSet, raise: Raise, image: &Image, cell: u32) -> bool
    requires { HasDefault set.now raise image.now }
    ensures admits { result ≡ admits_in set.now raise cell }
    ensures fits { OnTrue result (Fits image.now cell raise.value) }
{
    if cell >= image.len() {
        return false;
    }
    let fields = set.device(raise.device).desc.fields.as_slice();
    image.fits(cell, raise.value) && is_within(fields, raise.field, raise.value)
}

/// Returns the defaults of device `device` with one number raised to one above the newer set's
/// capacity, if the number can be that.
///
/// # Errors
///
/// [`NoMemory`] if memory runs out.
pub(crate) fn raised_image(
    alloc: Global,
    set: &DescSet,
    device: u32,
    excess: Excess,
) -> Result<Option<Image>, NoMemory>
    requires { HasDevice set.now device }
    ensures { IfOk result (IsRaised set.now device excess) }
{
    let raise = Raise {
        device,
        field: excess.field,
        value: i128::from(excess.room) + 1,
    };
    match set.cell(device, None, &[(excess.field, 0)]) {
        None => Ok(None),
        Some(cell) => raised_cell(alloc, set, raise, cell),
    }
}

// Does this for the cell of the number.
fn raised_cell(
    alloc: Global,
    set: &DescSet,
    raise: Raise,
    cell: u32,
) -> Result<Option<Image>, NoMemory>
    requires { HasDevice set.now raise.device }
    ensures { IfOk result (IsRaisedAt set.now raise cell) }
{
    let mut image = Image::new(alloc, set, raise.device)?;
    if !admits(set, raise, &image, cell) {
        return Ok(None);
    }
    put(&mut image, cell, raise.value);
    Ok(Some(image))
}

fn put(image: &mut Image, cell: u32, value: i128)
    requires { Fits image.old cell value }
    ensures { image.new ≡ record image.old { numbers = slice_set image.old.numbers cell value } }
{
    image.set(cell, value);
}
