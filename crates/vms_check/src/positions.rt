// The positions of fields among the present ones.
ghost use Rattle.std.specs.Prelude.{◌≡◌, ◌<◌, ◌≤◌, ℕ, Some, None, suc, map, length, get_or, if◌then◌else◌};
ghost use Rattle.vms_parts.specs.Views.{field_of};
ghost use Rattle.vms_check.specs.Comparing.{same_place};
ghost use Rattle.vms_check.specs.Places.{ArePlaces};
ghost use Rattle.vms_check.specs.Sides.{AreSides, IsSide, position_in, position_on};

use crate::reducing::is_present;
use crate::side::{Side, fields_of};
use vms_desc::Field;

// The position of each field of a description, if it is present. A description has at most 256 fields.
type Positions = [Option<u16>; 256];

// The positions of the fields of two sides.
#[derive(Drop)]
pub(crate) struct Places {
    in_old: Positions,
    in_new: Positions,
}

// Returns the entry of a field: `count` if it is present.
fn entry(is_there: bool, count: u16) -> Option<u16>
    ensures { result ≡ (if is_there then Some count else None) }
{
    if is_there { Some(count) } else { None }
}

// Returns the number of present fields up to and with this one.
fn counted(is_there: bool, count: u16) -> u16
    requires { count < 256 }
    ensures { result ≡ (if is_there then suc count else count) }
{
    if is_there { count + 1 } else { count }
}

fn positions(fields: &[Field], version: u32) -> Positions
    requires { length fields.now ≤ 256 }
    ensures { (k : ℕ) → get_or result k None ≡ position_in version (map field_of fields.now) k }
{
    let mut table = [None; 256];
    let mut count = 0;
    for number in 0..fields.len() {
        let is_there = is_present(&fields[number], version);
        table[number] = entry(is_there, count);
        count = counted(is_there, count);
    }
    table
}

fn positions_on(side: Side) -> Positions
    requires { IsSide side }
    ensures { (k : ℕ) → get_or result k None ≡ position_on side.entry k }
{
    positions(fields_of(side), side.version)
}

/// Returns the positions of the fields of both sides.
pub(crate) fn places_on(old: Side, new: Side) -> Places
    requires { AreSides old new }
    ensures { ArePlaces old.entry new.entry result }
{
    Places {
        in_old: positions_on(old),
        in_new: positions_on(new),
    }
}

// Returns the position of field `number`.
fn position_of(positions: &Positions, number: u32) -> Option<u16>
    ensures { result ≡ get_or positions.now number None }
{
    let number = number as usize;
    if number < positions.len() {
        positions[number]
    } else {
        None
    }
}

// Checks whether two fields are present on both sides and have the same position.
pub(crate) fn same_place(old: Side, new: Side, places: &Places, in_old: u32, in_new: u32) -> bool
    requires { ArePlaces old new places.now }
    ensures { result ≡ same_place (position_on old.entry in_old) (position_on new.entry in_new) }
{
    match (
        position_of(&places.in_old, in_old),
        position_of(&places.in_new, in_new),
    ) {
        (Some(one), Some(other)) => one == other,
        _ => false,
    }
}
