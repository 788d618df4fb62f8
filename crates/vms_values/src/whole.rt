// Reads values texts of any set.
ghost use Rattle.std.specs.Prelude.{IfOk};
ghost use Rattle.vms_spec.specs.ValuesReading.{values_read};
ghost use Rattle.vms_desc.specs.Described.{described};
ghost use Rattle.vms_image.specs.Typed.{AreImagesOf};
ghost use Rattle.vms_values.specs.Reading.{ReadsAs, MeansAs};

use crate::devices::read_lines;
use crate::fault::LineFault;
use crate::{Values, ValuesFault};
use std::alloc::Global;
use vms_desc::DescSet;

/// Reads a values text of `set`: the machine that it names, and an image for each device.
///
/// The text is read once, and may have any length. The images that are returned may be written.
///
/// # Errors
///
/// - [`ValuesFault::Bad`]: the first bad line, and why. A line that no text of the set has there is
///   reported first. Then comes a section or subsection whose validations fail, or a subsection
///   that came without being needed, or is needed and didn't come.
/// - [`ValuesFault::NoMemory`]: out of memory.
pub fn read_values(alloc: Global, set: &DescSet, text: &[u8]) -> Result<Values, ValuesFault>
    ensures read { let set = described set.now in ReadsAs set (values_read set text.now) result }
    ensures of { IfOk result (λ v. AreImagesOf (described set.now) v.images.items) }
    ensures means { MeansAs (described set.now) text.now result }
{
    match read_lines(alloc, set, text) {
        Ok(values) => Ok(values),
        Err(LineFault::Bad { line, reason }) => Err(ValuesFault::Bad {
            line: line as u32,
            reason,
        }),
        Err(LineFault::NoMemory) => Err(ValuesFault::NoMemory),
    }
}
