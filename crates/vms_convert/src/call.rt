// The conversion of a stream.
ghost use Rattle.std.specs.Prelude.{◌≡◌, IfOk, map};
ghost use Rattle.dev_base.specs.declared.limits.TheConstants.{NEWEST};
ghost use Rattle.vms_desc.specs.Described.{described};
ghost use Rattle.vms_desc.specs.Formed.{shipped_set};
ghost use Rattle.vms_io.specs.Told.{intake, outlet};
ghost use Rattle.vms_load.specs.Lean.{has, loads};
ghost use Rattle.vms_load.specs.Staging.{name_of};
ghost use Rattle.vms_image.specs.Typed.{state_of};
ghost use Rattle.vms_spec.specs.Lists.{at_option};
ghost use Rattle.vms_io.specs.Writing.{Wrote};
ghost use Rattle.vms_convert.specs.Losing.{stream_of};
ghost use Rattle.vms_convert.specs.Calls.{Converts, ConvertsInto, ConvertsKept};
ghost use Rattle.vms_convert.specs.Needs.{CanConvert, CanConvertKept, CanWrite};

use crate::fault::ConvertFault;
use crate::losing::judge;
use crate::returns::return_all;
use crate::room::{Room, room_for};
use dev_base::NEWEST;
use std::alloc::Global;
use vms_check::{Verdict, check};
use vms_desc::DescSet;
use vms_image::Image;
use vms_io::{NoMemory, Sink, Source, WriteFault};
use vms_load::LeanLoader;
use vms_selfdesc::DescriptionRoom;
use vms_write::write_stream;

/// Reads a stream from `source` with the newest shipped set and writes the same state to `sink`
/// under the set `to`.
///
/// Each cell of `to` takes the number of its partner in the newest set, if it has one. The bytes of
/// the port's FIFOs move from rings into counted arrays first, if `to` keeps them so. The new
/// stream names the same machine and describes itself.
///
/// # Errors
///
/// - [`ConvertFault::NotCompatible`]: the newest set doesn't read what `to` writes. Nothing has
///   been read or written.
/// - [`ConvertFault::Refused`]: the input isn't a stream of the newest set. Nothing has been
///   written.
/// - [`ConvertFault::WouldLose`]: `to` has no room for something in the stream. Nothing has been
///   written.
/// - [`ConvertFault::ReadFault`]: `source` failed. Nothing has been written.
/// - [`ConvertFault::WriteFault`]: `sink` failed. A prefix of the new stream has been written.
/// - [`ConvertFault::NoMemory`]: out of memory. Nothing has been read or written.
pub fn convert<S: Source, K: Sink>(
    alloc: Global,
    source: &mut S,
    to: &DescSet,
    sink: &mut K,
) -> Result<(), ConvertFault>
    ensures { let before = intake S.Source source.old in let after = intake S.Source source.new in
        let empty = outlet K.Sink sink.old in let full = outlet K.Sink sink.new in
        Converts (described to.now) (shipped_set NEWEST) before after empty full result }
{
    let mut loader = newest_loader(alloc)?;
    convert_with(alloc, source, to, &mut loader, sink)
}

/// Returns a loader of the newest shipped set for [`convert_with`]. It holds all memory that
/// reading needs.
///
/// # Errors
///
/// [`NoMemory`] if memory runs out.
pub fn newest_loader(alloc: Global) -> Result<LeanLoader, NoMemory>
    ensures { IfOk result (λ loader. loads loader ≡ shipped_set NEWEST) }
{
    let newest = DescSet::shipped(alloc, NEWEST)?;
    LeanLoader::new(alloc, newest)
}

/// Converts as [`convert`] does, with a `loader` that the caller has made.
///
/// The caller thereby has the newest set, whose devices and cells a fault names by number.
///
/// # Requires
///
/// `loader` has the newest shipped set, as [`newest_loader`] makes it.
///
/// # Errors
///
/// The errors of [`convert`].
pub fn convert_with<S: Source, K: Sink>(
    alloc: Global,
    source: &mut S,
    to: &DescSet,
    loader: &mut LeanLoader,
    sink: &mut K,
) -> Result<(), ConvertFault>
    requires { loads loader.old ≡ shipped_set NEWEST }
    ensures converts { let before = intake S.Source source.old in let after = intake S.Source source.new in
        let empty = outlet K.Sink sink.old in let full = outlet K.Sink sink.new in
        Converts (described to.now) (shipped_set NEWEST) before after empty full result }
    ensures set { loads loader.new ≡ shipped_set NEWEST }
{
    if let Verdict::Refused(mismatch) = check(to, loader.set()) {
        return Err(ConvertFault::NotCompatible(mismatch));
    }
    let room = room_for(alloc, to, loader.set())?;
    convert_by(source, to, loader, room, sink)
}

// Converts with a loader of the newest set, which reads what the target writes. Memory can't run out.
fn convert_by<S: Source, K: Sink>(
    source: &mut S,
    to: &DescSet,
    loader: &mut LeanLoader,
    room: Room,
    sink: &mut K,
) -> Result<(), ConvertFault>
    requires { CanConvert to.now loader.old room }
    ensures converts { let before = intake S.Source source.old in let after = intake S.Source source.new in
        let empty = outlet K.Sink sink.old in let full = outlet K.Sink sink.new in
        ConvertsInto (described to.now) (shipped_set NEWEST) before after empty full result }
    ensures set { loads loader.new ≡ shipped_set NEWEST }
{
    let machine = loader.load(source, None)?;
    convert_kept(to, loader, machine, room, sink)
}

// Writes the images of `loader` under the target.
fn convert_kept<K: Sink>(
    to: &DescSet,
    loader: &LeanLoader,
    machine: Option<u32>,
    mut room: Room,
    sink: &mut K,
) -> Result<(), ConvertFault>
    requires { CanConvertKept to.now loader.now machine room }
    ensures { let empty = outlet K.Sink sink.old in let full = outlet K.Sink sink.new in
        let new = shipped_set NEWEST in let name = name_of new machine in
        ConvertsKept (described to.now) new name (has loader.now) empty full result }
{
    let lost = return_all(to, loader, &mut room.routes, &mut room.images);
    let machine = judge(to, loader, machine, &room.images, lost)?;
    write_back(to, machine, &room.images, &mut room.text, sink)?;
    Ok(())
}

// Writes images of the target, with their description.
fn write_back<K: Sink>(
    to: &DescSet,
    machine: Option<u32>,
    images: &[Image],
    text: &mut DescriptionRoom,
    sink: &mut K,
) -> Result<(), WriteFault>
    requires { CanWrite to.now machine images.now }
    ensures { let name = at_option (described to.now).machines machine in
        let bytes = stream_of (described to.now) name (map state_of images.now) in
        Wrote (outlet K.Sink sink.old) (outlet K.Sink sink.new) bytes result }
{
    let text = text.describe(to, images);
    write_stream(to, machine, images, Some(text), sink)
}
