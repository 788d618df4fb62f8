// Writes sections.
ghost use Rattle.std.specs.Prelude.{◌≡◌, ◌<◌, length};
ghost use Rattle.vms_io.specs.Told.{outlet};
ghost use Rattle.vms_io.specs.Writing.{Wrote};
ghost use Rattle.vms_spec.specs.Streams.{IsReady, written_section};
ghost use Rattle.vms_desc.specs.Described.{described, device_at};
ghost use Rattle.vms_desc.specs.Spots.{kinds_at};
ghost use Rattle.vms_image.specs.Typed.{state_of};
ghost use Rattle.vms_write.specs.Calls.{CanWriteSub, sub_bytes};

use crate::WriteFault;
use crate::body::write_fields;
use crate::pieces::append;
use vms_desc::{DescSet, Part};
use vms_image::Image;
use vms_io::Sink;
use vms_marks::Foot;
use vms_marks::heads::{section_head, sub_head};
use vms_walk::PartAt;

/// Writes the section of device `device` to `sink`, with the device's number as its id.
///
/// After an error a prefix of it has been written.
///
/// # Errors
///
/// - [`WriteFault`]: the sink failed.
///
/// # Requires
///
/// The set has the device, and `image` is one of it that may be written (see
/// [`ready`](crate::ready)).
pub fn write_section<K: Sink>(
    set: &DescSet,
    device: u32,
    image: &Image,
    sink: &mut K,
) -> Result<(), WriteFault>
    requires is_device { device < length (described set.now).devices }
    requires kinds { image.now.kinds ≡ kinds_at (described set.now) device }
    requires ready { let set = described set.now in let d = device_at set device in
        IsReady set d (state_of image.now) }
    ensures { let set = described set.now in let d = device_at set device in
        let bytes = written_section set d (state_of image.now) device in
        Wrote (outlet K.Sink sink.old) (outlet K.Sink sink.new) bytes result }
{
    let described = set.device(device);
    let name = described.desc.name.as_bytes();
    let version = image.version();
    let head = section_head(device, name, described.instance, version);
    append(sink, head.as_slice())?;
    let own = PartAt {
        part: Part::Device(device),
        version,
        base: 0,
    };
    write_fields(set, own, image, sink)?;
    for sub in 0..set.sub_count(device) {
        write_sub(set, device, sub, image, sink)?;
    }
    append(sink, &Foot { id: device }.bytes())
}

// Writes a subsection, if it came.
fn write_sub<K: Sink>(
    set: &DescSet,
    device: u32,
    sub: u32,
    image: &Image,
    sink: &mut K,
) -> Result<(), WriteFault>
    requires { CanWriteSub set.now device sub image.now }
    ensures { let bytes = sub_bytes set.now device sub image.now in
        Wrote (outlet K.Sink sink.old) (outlet K.Sink sink.new) bytes result }
{
    match image.came(sub) {
        Some(version) => {
            let part = Part::Sub(device, sub);
            let head = sub_head(set.desc(part).name.as_bytes(), version);
            append(sink, head.as_slice())?;
            let spot = PartAt {
                part,
                version,
                base: set.first_cell(part),
            };
            write_fields(set, spot, image, sink)
        }
        None => Ok(()),
    }
}
