// The parts of a set.
ghost use Rattle.vms_json.specs.Nodes.{view};
ghost use Rattle.vms_parts.specs.Views.{set_of as set_seen};
ghost use Rattle.vms_json.specs.Answers.{Answers};
ghost use Rattle.vms_descfile.specs.Descs.{set_in, set_of, parts_of};

use super::descs::StructOf;
use super::devices::DeviceOf;
use std::alloc::Global;
use vms_json::{Fault, ListOf, Node, TextOf, at, fits};
use vms_parts::Parts;

/// Reads the parts of a set from `value`.
///
/// One walk that looks up names is enough if it finds no fault. Otherwise a fault that a walk
/// without names finds comes first.
///
/// # Errors
///
/// - [`Fault::Shape`]: the value hasn't the shape of a description file, first at this path.
/// - [`Fault::NoMemory`]: out of memory.
pub fn read_parts(alloc: Global, value: &Node) -> Result<Parts, Fault>
    ensures { Answers set_seen (parts_of (view value.now)) result }
{
    match read_walk(alloc, true, value) {
        Ok(parts) => Ok(parts),
        Err(fault) => match read_walk(alloc, false, value) {
            Ok(_unasked) => Err(fault),
            Err(first) => Err(first),
        },
    }
}

fn read_walk(alloc: Global, asks: bool, value: &Node) -> Result<Parts, Fault>
    ensures { Answers set_seen (set_of asks (view value.now)) result }
{
    if fits(value, &["devices", "machines", "structs"], &[]) {
        read_members(alloc, asks, value)
    } else {
        Err(Fault::here(alloc))
    }
}

fn read_members(alloc: Global, asks: bool, value: &Node) -> Result<Parts, Fault>
    ensures { Answers set_seen (set_in asks (view value.now)) result }
{
    let devices = at(alloc, &ListOf(DeviceOf { asks }), "devices", value)?;
    let machines = at(alloc, &ListOf(TextOf), "machines", value)?;
    let structs = at(alloc, &ListOf(StructOf { asks }), "structs", value)?;
    Ok(Parts {
        machines,
        structs,
        devices,
    })
}
