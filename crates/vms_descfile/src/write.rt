// Writes a description file.
ghost use Rattle.std.specs.Prelude.{◌≡◌, IfOk, string_bytes};
ghost use Rattle.serde_json.specs.Written.{compact_text};
ghost use Rattle.vms_desc.specs.Described.{described};
ghost use Rattle.vms_descfile.specs.Files.{file_said, Parts};
ghost use Rattle.vms_descfile.specs.Written.{set_file};

use std::alloc::Global;
use vms_desc::DescSet;
use vms_io::NoMemory;

mod fields;
mod sets;
mod tests;
mod values;

pub use sets::set_value;

/// Returns the description file of `set`, which [`read_set`](crate::read_set) reads as the same
/// set.
///
/// The text is JSON without spaces. The keys of each object are in byte order, and keys at their
/// defaults are left out.
///
/// # Errors
///
/// - [`NoMemory`]: out of memory.
pub fn write_set(alloc: Global, set: &DescSet) -> Result<String, NoMemory>
    ensures text { IfOk result (λ s. string_bytes s ≡ compact_text (set_file (described set.now))) }
    ensures reads_back { IfOk result (λ s. file_said (string_bytes s) ≡ Parts (described set.now)) }
{
    let parts = set.parts();
    let value = set_value(alloc, parts)?;
    Ok(value.to_string(alloc)?)
}
