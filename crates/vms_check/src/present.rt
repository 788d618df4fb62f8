// The fields that are present at a version.
ghost use Rattle.vms_check.specs.Pairs.{IsNext};
ghost use Rattle.vms_check.specs.Sides.{IsSide};

use crate::reducing::is_present;
use crate::side::{Side, fields_of};
use vms_desc::Field;

// A present field, with its number in the description.
#[derive(Clone, Copy)]
pub(crate) struct Present<'a> {
    pub(crate) number: u32,
    pub(crate) field: &'a Field,
}

// Returns the first present field from number `from` on.
pub(crate) fn next_present(side: Side<'_>, from: usize) -> Option<Present<'_>>
    requires side { IsSide side }
    ensures { IsNext side.entry from result }
{
    let fields = fields_of(side);
    let mut number = from;
    while number < fields.len() {
        let field = &fields[number];
        if is_present(field, side.version) {
            return Some(Present {
                number: number as u32,
                field,
            });
        }
        number += 1;
    }
    None
}
