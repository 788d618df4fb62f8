// Reads a description file.
ghost use Rattle.vms_spec.specs.WellFormed.{first_fault};
ghost use Rattle.vms_parts.specs.Views.{set_of as set_seen};
ghost use Rattle.vms_descfile.specs.Files.{value_in, file_said, judged_said};
ghost use Rattle.vms_descfile.specs.Given.{Gives, GivesValue, SaysParts};

use crate::FileFault;
use json::Scratch;
use std::alloc::Global;
use vms_desc::{DescFault, DescSet, Parts};
use vms_json::{NoNode, Tree, read_bytes};

mod cells;
mod descs;
mod devices;
mod fields;
mod parts;
mod sort;
mod tests;

pub use parts::read_parts;

/// Reads the description set in the file `text`.
///
/// # Errors
///
/// - [`FileFault::Syntax`]: `text` is no JSON value.
/// - [`FileFault::Shape`]: the value hasn't the shape of a description file, first at this path.
/// - [`FileFault::IllFormed`]: the parts break a rule of well-formed sets, first at this place.
/// - [`FileFault::NoMemory`]: out of memory.
pub fn read_set(alloc: Global, text: &[u8]) -> Result<DescSet, FileFault>
    ensures { Gives (file_said text.now) result }
{
    match read_file(alloc, text) {
        Ok(parts) => make_set(alloc, parts),
        Err(fault) => Err(fault),
    }
}

// Reads the parts in a description file, well formed or not. The tree of its values is freed before
// the set is made.
fn read_file(alloc: Global, text: &[u8]) -> Result<Parts, FileFault>
    ensures { SaysParts text.now result }
{
    let mut scratch = Scratch::new(alloc);
    let value = match read_value(alloc, text, &mut scratch) {
        Ok(value) => value,
        Err(fault) => return Err(fault),
    };
    match read_parts(alloc, &value.root()) {
        Ok(parts) => Ok(parts),
        Err(fault) => Err(FileFault::of(alloc, fault)),
    }
}

// Returns the set of these parts, if they are well formed.
fn make_set(alloc: Global, parts: Parts) -> Result<DescSet, FileFault>
    ensures { Gives (judged_said (set_seen parts) (first_fault (set_seen parts))) result }
{
    match DescSet::new(alloc, parts) {
        Ok(set) => Ok(set),
        Err(DescFault::IllFormed { rule, place }) => Err(FileFault::IllFormed { rule, place }),
        Err(DescFault::NoMemory) => Err(FileFault::NoMemory),
    }
}

// Reads the JSON value of a text.
fn read_value<'a>(
    alloc: Global,
    text: &'a [u8],
    scratch: &'a mut Scratch,
) -> Result<Tree<'a>, FileFault>
    ensures { GivesValue (value_in text.now) result }
{
    match read_bytes(alloc, text, scratch) {
        Ok(value) => Ok(value),
        Err(NoNode::Syntax) => Err(FileFault::Syntax),
        Err(NoNode::NoMemory) => Err(FileFault::NoMemory),
    }
}
