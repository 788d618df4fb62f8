// Writes whole streams.
ghost use Rattle.std.specs.Prelude.{◌<◌, ◌≤◌, length, map, IfSome};
ghost use Rattle.std.specs.Option.{option_copied};
ghost use Rattle.vms_io.specs.Told.{outlet};
ghost use Rattle.vms_io.specs.Writing.{Wrote};
ghost use Rattle.vms_spec.specs.Lists.{at_option};
ghost use Rattle.vms_spec.specs.Streams.{written, longest_text, optional, trailer, AreReady};
ghost use Rattle.vms_desc.specs.Described.{described};
ghost use Rattle.vms_image.specs.Typed.{state_of, AreImagesOf};
ghost use Rattle.vms_write.specs.Calls.{CanWriteSections, HasMachine, configuration_bytes, sections_bytes};

use crate::WriteFault;
use crate::pieces::append;
use crate::section::write_section;
use vms_desc::DescSet;
use vms_image::Image;
use vms_io::Sink;
use vms_marks::heads::configuration;
use vms_marks::{Mark, STREAM_HEAD, marked};

/// Writes the stream of `images`, one for each device in the set's order, to `sink`.
///
/// If `machine` is given, a machine's number in the set, the stream has a configuration. If `text`
/// is given, it has a description section. After an error a prefix of the stream has been written.
///
/// # Errors
///
/// - [`WriteFault`]: the sink failed.
///
/// # Requires
///
/// The set has the machine, the images may be written (see [`are_ready`](crate::are_ready)), and
/// `text` has at most 16,777,216 bytes.
pub fn write_stream<K: Sink>(
    set: &DescSet,
    machine: Option<u32>,
    images: &[Image],
    text: Option<&str>,
    sink: &mut K,
) -> Result<(), WriteFault>
    requires machine { IfSome machine (λ m. m < length (described set.now).machines) }
    requires of { AreImagesOf (described set.now) images.now }
    requires ready { AreReady (described set.now) (map state_of images.now) }
    requires text { IfSome text (λ t. length t.now ≤ longest_text) }
    ensures { let set = described set.now in let named = at_option set.machines machine in
        let images = map state_of images.now in
        let bytes = written set named images (option_copied text.entry) in
        Wrote (outlet K.Sink sink.old) (outlet K.Sink sink.new) bytes result }
{
    append(sink, &STREAM_HEAD)?;
    write_configuration(set, machine, sink)?;
    write_sections(set, images, sink)?;
    append(sink, &[Mark::End.byte()])?;
    write_text(text, sink)
}

// Writes a configuration, if a machine is named.
fn write_configuration<K: Sink>(
    set: &DescSet,
    machine: Option<u32>,
    sink: &mut K,
) -> Result<(), WriteFault>
    requires { HasMachine set.now machine }
    ensures { let bytes = configuration_bytes set.now machine in
        Wrote (outlet K.Sink sink.old) (outlet K.Sink sink.new) bytes result }
{
    match machine {
        Some(number) => {
            let name = set.parts().machines.as_slice()[number as usize].as_bytes();
            append(sink, configuration(name).as_slice())
        }
        None => Ok(()),
    }
}

fn write_sections<K: Sink>(set: &DescSet, images: &[Image], sink: &mut K) -> Result<(), WriteFault>
    requires { CanWriteSections set.now images.now }
    ensures { let bytes = sections_bytes set.now images.now in
        Wrote (outlet K.Sink sink.old) (outlet K.Sink sink.new) bytes result }
{
    for (device, image) in images.iter().enumerate() {
        write_section(set, device as u32, image, sink)?;
    }
    Ok(())
}

// Writes a description section, if there is a text.
fn write_text<K: Sink>(text: Option<&str>, sink: &mut K) -> Result<(), WriteFault>
    requires { IfSome text (λ t. length t.now ≤ longest_text) }
    ensures { let bytes = optional trailer (option_copied text.entry) in
        Wrote (outlet K.Sink sink.old) (outlet K.Sink sink.new) bytes result }
{
    match text {
        Some(text) => write_trailer(text, sink),
        None => Ok(()),
    }
}

fn write_trailer<K: Sink>(text: &str, sink: &mut K) -> Result<(), WriteFault>
    requires { length text.now ≤ longest_text }
    ensures { Wrote (outlet K.Sink sink.old) (outlet K.Sink sink.new) (trailer text.now) result }
{
    append(sink, &marked(Mark::Description, text.len() as u32))?;
    append(sink, text.as_bytes())
}
