// Prints the values text.
ghost use Rattle.std.specs.Prelude.{◌<◌, length, map};
ghost use Rattle.std.specs.Option.{ForSome};
ghost use Rattle.vms_io.specs.Told.{outlet};
ghost use Rattle.vms_io.specs.Writing.{Wrote};
ghost use Rattle.vms_spec.specs.Values.{values_text, machine_line};
ghost use Rattle.vms_desc.specs.Described.{described};
ghost use Rattle.vms_parts.specs.Views.{set_of, device_of};
ghost use Rattle.vms_image.specs.Typed.{state_of};
ghost use Rattle.vms_values.specs.Calls.{AreShown, HasImage, HasSubImage, device_text, devices_text, sub_text};
ghost use Rattle.vms_values.specs.Printing.{AreOf, machine_of, section_text, sub_text as sub_line_text};

use crate::line::Line;
use crate::lines::write_pieces;
use crate::shown::{Shown, print_lines};
use itoa::Buffer;
use vms_desc::{DescSet, Device, Part, Parts};
use vms_image::Image;
use vms_io::{Failed, Sink, WriteFault};
use vms_walk::PartAt;

/// Writes the values text of `images` to `sink`, with a line for the machine if `machine` is given.
///
/// `machine` is a machine's number in the set. After an error only a beginning of the text has been
/// written.
///
/// # Errors
///
/// - [`WriteFault`]: the sink failed.
///
/// # Requires
///
/// The set has the machine, and there is one image for each device of the set, with the number of
/// cells and subsections that the device has.
pub fn print_values<K: Sink>(
    set: &DescSet,
    machine: Option<u32>,
    images: &[Image],
    sink: &mut K,
) -> Result<(), WriteFault>
    requires named { ForSome machine (λ m. m < length (described set.now).machines) }
    requires one_each { let set = described set.now in
        AreOf set set.devices (map state_of images.now) }
    ensures { let set = described set.now in
        let text = values_text set (machine_of set machine) (map state_of images.now) in
        Wrote (outlet K.Sink sink.old) (outlet K.Sink sink.new) text result }
{
    print_machine(set.parts(), machine, sink).map_err(|_| WriteFault)?;
    print_devices(set, images, sink).map_err(|_| WriteFault)
}

fn print_machine<K: Sink>(parts: &Parts, machine: Option<u32>, sink: &mut K) -> Result<(), Failed>
    requires { ForSome machine (λ m. m < length (set_of parts.now).machines) }
    ensures { let text = machine_line (machine_of (set_of parts.now) machine) in
        Wrote (outlet K.Sink sink.old) (outlet K.Sink sink.new) text result }
{
    match machine {
        Some(machine) => {
            let name = &parts.machines.as_slice()[machine as usize];
            write_pieces(sink, &[b"machine ", name.as_bytes(), b"\n"])
        }
        None => Ok(()),
    }
}

fn print_devices<K: Sink>(set: &DescSet, images: &[Image], sink: &mut K) -> Result<(), Failed>
    requires one_each { AreShown set.now images.now }
    ensures { let text = devices_text set.now images.now in
        Wrote (outlet K.Sink sink.old) (outlet K.Sink sink.new) text result }
{
    let mut line = Line::new();
    for device in 0..set.parts().devices.as_slice().len() as u32 {
        let image = &images[device as usize];
        print_device(Shown { set, image }, device, &mut line, sink)?;
    }
    Ok(())
}

// Prints a section with its subsections.
fn print_device<K: Sink>(
    shown: Shown,
    device: u32,
    line: &mut Line,
    sink: &mut K,
) -> Result<(), Failed>
    requires { HasImage shown device }
    ensures { let text = device_text shown.entry device in
        Wrote (outlet K.Sink sink.old) (outlet K.Sink sink.new) text result }
{
    let version = shown.image.version();
    print_section(shown.set.device(device), version, sink)?;
    let part = Part::Device(device);
    let own = PartAt {
        part,
        version,
        base: 0,
    };
    print_lines(shown, own, line, sink)?;
    for sub in 0..shown.set.sub_count(device) {
        print_sub(shown, device, sub, line, sink)?;
    }
    Ok(())
}

// Prints the line of a section.
fn print_section<K: Sink>(device: &Device, version: u32, sink: &mut K) -> Result<(), Failed>
    ensures { let text = section_text (device_of device.now) version in
        Wrote (outlet K.Sink sink.old) (outlet K.Sink sink.new) text result }
{
    let name = device.desc.name.as_bytes();
    let (mut instance, mut number) = (Buffer::new(), Buffer::new());
    let instance = instance.format(device.instance).as_bytes();
    let version = number.format(version).as_bytes();
    write_pieces(
        sink,
        &[b"section ", name, b" ", instance, b" v", version, b"\n"],
    )
}

// Prints a subsection, whether or not it came.
fn print_sub<K: Sink>(
    shown: Shown,
    device: u32,
    sub: u32,
    line: &mut Line,
    sink: &mut K,
) -> Result<(), Failed>
    requires { HasSubImage shown device sub }
    ensures { let text = sub_text shown.entry device sub in
        Wrote (outlet K.Sink sink.old) (outlet K.Sink sink.new) text result }
{
    let part = Part::Sub(device, sub);
    let desc = shown.set.desc(part);
    print_sub_line(desc.name.as_bytes(), shown.image.came(sub), sink)?;
    let spot = PartAt {
        part,
        version: desc.version,
        base: shown.set.first_cell(part),
    };
    print_lines(shown, spot, line, sink)
}

// Prints the line of a subsection: the version at which it came, or a dash.
fn print_sub_line<K: Sink>(name: &[u8], came: Option<u32>, sink: &mut K) -> Result<(), Failed>
    ensures { let text = sub_line_text name.now came in
        Wrote (outlet K.Sink sink.old) (outlet K.Sink sink.new) text result }
{
    match came {
        Some(version) => {
            let mut number = Buffer::new();
            let version = number.format(version).as_bytes();
            write_pieces(sink, &[b"sub ", name, b" v", version, b"\n"])
        }
        None => write_pieces(sink, &[b"sub ", name, b" -\n"]),
    }
}
