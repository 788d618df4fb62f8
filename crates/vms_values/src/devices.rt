// Reads the lines of devices.
ghost use Rattle.vms_values.specs.Calls.{CanReadDevice, HasDevice, HasFewDevices, ReadsDevice, ReadsImage, ReadsImages, ReadsText};
ghost use Rattle.vms_values.specs.DevicesRead.{ToldAs};

use crate::Values;
use crate::cursor::Lines;
use crate::fault::LineFault;
use crate::judge::{BadLine, judge_device};
use crate::line::Line;
use crate::machine::read_machine;
use crate::read::{bad, push_image, read_section};
use crate::subsections::read_subs;
use crate::taken::{Taken, read_part};
use std::alloc::Global;
use vms_desc::{DescSet, Part};
use vms_image::Image;
use vms_spec::ValuesReason;
use vms_walk::PartAt;

/// The rest of a text, the first bad line of the second pass so far, and the one line in which all
/// paths are put together.
#[derive(Drop)]
struct Reading<'a> {
    lines: Lines<'a>,
    judged: Option<BadLine>,
    path: Line,
}

/// Reads the lines of a values text of `set`, in both passes.
///
/// # Errors
///
/// - [`LineFault::Bad`]: the first line that is refused, and why.
/// - [`LineFault::NoMemory`]: out of memory.
pub(crate) fn read_lines(alloc: Global, set: &DescSet, text: &[u8]) -> Result<Values, LineFault>
    ensures { ReadsText set.now text.now result }
{
    let start = read_machine(set.parts().machines.as_slice(), text);
    let mut reading = Reading {
        lines: start.lines,
        judged: None,
        path: Line::new(),
    };
    let images = read_images(alloc, set, &mut reading)?;
    if !reading.lines.rest.is_empty() {
        return Err(bad(&reading.lines, ValuesReason::Form));
    }
    told(
        reading.judged,
        Values {
            machine: start.machine,
            images,
        },
    )
}

// Returns `values`, unless a line was bad in the second pass.
fn told(judged: Option<BadLine>, values: Values) -> Result<Values, LineFault>
    ensures { ToldAs judged values result }
{
    match judged {
        Some(BadLine { line, reason }) => Err(LineFault::Bad { line, reason }),
        None => Ok(values),
    }
}

// Reads the images of all devices.
fn read_images(alloc: Global, set: &DescSet, reading: &mut Reading) -> Result<Vec<Image>, LineFault>
    requires few { HasFewDevices set.now }
    ensures { ReadsImages set.now reading.old reading.new result }
{
    let mut images = Vec::new(alloc);
    for device in 0..set.parts().devices.as_slice().len() as u32 {
        let image = read_image(alloc, set, device, reading)?;
        push_image(&mut images, image)?;
    }
    Ok(images)
}

// Reads the image of `device` from the lines of its section and its subsections.
fn read_image(
    alloc: Global,
    set: &DescSet,
    device: u32,
    reading: &mut Reading,
) -> Result<Image, LineFault>
    requires known { HasDevice set.now device }
    ensures { ReadsImage set.now device reading.old reading.new result }
{
    let mut taken = Taken {
        image: Image::new(alloc, set, device)?,
        lines: reading.lines,
    };
    read_device(set, device, &mut taken, &mut Vec::new(alloc), reading)?;
    Ok(taken.image)
}

// Reads the lines of `device` over its defaults, and judges them. `sub_lines` gets the line numbers
// of its subsections.
fn read_device<'a>(
    set: &DescSet,
    device: u32,
    taken: &mut Taken<'a>,
    sub_lines: &mut Vec<usize>,
    reading: &mut Reading<'a>,
) -> Result<(), LineFault>
    requires { CanReadDevice set.now device taken.old sub_lines.old.items reading.old }
    ensures { ReadsDevice set.now device taken.new.image reading.old reading.new result }
{
    let line = taken.lines.line;
    read_section(set.device(device), &mut taken.lines)?;
    let own = PartAt {
        part: Part::Device(device),
        version: taken.image.version(),
        base: 0,
    };
    read_part(set, own, &mut reading.path, taken)?;
    read_subs(set, device, &mut reading.path, taken, sub_lines)?;
    reading.lines = taken.lines;
    if reading.judged.is_none() {
        reading.judged = judge_device(set, device, &taken.image, line, sub_lines);
    }
    Ok(())
}
