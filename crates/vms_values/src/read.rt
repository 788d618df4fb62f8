// Reads the lines of sections; also what all readings share.
ghost use Rattle.std.specs.Prelude.{◌≡◌, ◌+◌, ◌<◌, ◌++◌, ◌∷◌, [], length, codes, OnOk};
ghost use Rattle.std.specs.Str.{bytes_eq};
ghost use Rattle.vms_spec.specs.Spelling.{first_line};
ghost use Rattle.vms_spec.specs.ValuesReading.{section_line, is_line};
ghost use Rattle.vms_parts.specs.Views.{device_of};
ghost use Rattle.vms_values.specs.Calls.{IsPast};
ghost use Rattle.vms_values.specs.Spelled.{Strips};
ghost use Rattle.vms_values.specs.Reading.{Passed};

use crate::cursor::Lines;
use crate::fault::LineFault;
use crate::line::Line;
use crate::text::is_joined;
use itoa::Buffer;
use vms_desc::Device;
use vms_image::Image;
use vms_io::NoMemory;
use vms_spec::ValuesReason;
use vms_words::{NextLine, next_line};

/// Returns the fault at the next line.
pub(crate) fn bad(lines: &Lines, reason: ValuesReason) -> LineFault
    ensures { result ≡ LineFault.Bad lines.now.line reason }
{
    LineFault::Bad {
        line: lines.line,
        reason,
    }
}

/// Appends `image`.
///
/// # Errors
///
/// - [`NoMemory`]: out of memory.
pub(crate) fn push_image(images: &mut Vec<Image>, image: Image) -> Result<(), NoMemory>
    ensures { OnOk result (images.new.items ≡ images.old.items ++ image ∷ []) }
{
    images.push(image)?;
    Ok(())
}

/// Reads the line of a section.
///
/// # Errors
///
/// - [`LineFault::Bad`]: the line isn't that of the device's section.
pub(crate) fn read_section(device: &Device, lines: &mut Lines) -> Result<(), LineFault>
    ensures { Passed (is_line (section_line (device_of device.now)) (first_line lines.old.rest.now))
        lines.old lines.new result }
{
    match next_line(lines.rest) {
        Some(line) => {
            if is_section(device, line.text) {
                pass(lines, line);
                Ok(())
            } else {
                Err(bad(lines, ValuesReason::Form))
            }
        }
        None => Err(bad(lines, ValuesReason::Form)),
    }
}

/// Returns whether `line` is that of the device's section.
fn is_section(device: &Device, line: &[u8]) -> bool
    ensures { result ≡ bytes_eq line.now (section_line (device_of device.now)) }
{
    let name = device.desc.name.as_bytes();
    let (mut instance, mut version) = (Buffer::new(), Buffer::new());
    let instance = instance.format(device.instance).as_bytes();
    let version = version.format(device.desc.version).as_bytes();
    is_joined(line, &[b"section ", name, b" ", instance, b" v", version])
}

/// Moves on after a line.
pub(crate) fn pass<'a>(lines: &mut Lines<'a>, next: NextLine<'a>)
    requires { length next.text.now + length next.after.now + 1 ≡ length lines.old.rest.now }
    ensures { IsPast lines.old next.entry.after.now lines.new }
{
    lines.line += 1;
    lines.rest = next.after;
}

/// Returns the text of the number in the line of a cell, if the line begins with `path` and ` = `.
pub(crate) fn number_text<'a>(path: &Line, line: &'a [u8]) -> Option<&'a [u8]>
    ensures { Strips (path.now ++ codes " = ") line.now result }
{
    match line.strip_prefix(path.text()) {
        Some(rest) => rest.strip_prefix(b" = "),
        None => None,
    }
}
