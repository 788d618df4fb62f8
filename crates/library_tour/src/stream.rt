// Images of a set, their stream, and the loader.
ghost use Rattle.std.specs.Prelude.{◌≡◌, IfOk, OnOk, OnErr, Some, None, map, slice_set, slice_get};
ghost use Rattle.vms_desc.specs.Described.{described};
ghost use Rattle.vms_image.specs.Typed.{default_at, state_of};
ghost use Rattle.vms_load.specs.Good.{AreKept};
ghost use Rattle.vms_load.specs.Kept.{kept, loads};
ghost use Rattle.vms_spec.specs.Streams.{written};
ghost use Rattle.library_tour.specs.Lamps.{with_two};

use crate::lamp::{Lamp, restored};
use anyhow::{Context, Result, bail};
use arrayvec::ArrayVec;
use std::alloc::Global;
use vms_desc::DescSet;
use vms_image::Image;
use vms_io::{MemSink, MemSource};
use vms_load::{LoadFault, Loader};
use vms_write::{are_ready, write_stream};

/// Returns the default image of the first device of `set`, with `one` and `two` in its first two
/// cells.
///
/// # Errors
///
/// An error if there is no such device or cell, if a number is out of range, or if memory runs out.
pub fn image_of(alloc: Global, set: &DescSet, one: i128, two: i128) -> Result<Image>
    ensures { IfOk result (λ image. image ≡ with_two (default_at (described set.now) 0) one two) }
{
    if set.parts().devices.as_slice().is_empty() {
        bail!("a set without devices");
    }
    let mut image = Image::new(alloc, set, 0).ok().context("memory")?;
    put(&mut image, 0, one)?;
    put(&mut image, 1, two)?;
    Ok(image)
}

// Sets a cell, if it exists and the number is in the range of its kind.
fn put(image: &mut Image, cell: u32, number: i128) -> Result<()>
    ensures ok { OnOk result (image.new
        ≡ record image.old { numbers = slice_set image.old.numbers cell number }) }
    ensures err { OnErr result (image.new ≡ image.old) }
{
    if cell >= image.len() || !image.fits(cell, number) {
        bail!("no such number");
    }
    image.set(cell, number);
    Ok(())
}

/// Returns the stream of `images` of `set`, with the set's first machine.
///
/// # Errors
///
/// An error if the set has no machine, if the images can't be written, or if memory runs out.
pub fn written(alloc: Global, set: &DescSet, images: &[Image]) -> Result<Vec<u8>>
    ensures { let machine = slice_get (described set.now).machines 0 in
        let bytes = written (described set.now) machine (map state_of images.now) None in
        IfOk result (λ stream. stream.items ≡ bytes) }
{
    if set.parts().machines.as_slice().is_empty() || !are_ready(set, images) {
        bail!("nothing to write");
    }
    let mut sink = MemSink::new(alloc, 65536, Vec::new(alloc))
        .ok()
        .context("memory")?;
    write_stream(set, Some(0), images, None, &mut sink)
        .ok()
        .context("room")?;
    Ok(sink.bytes().to_vec(alloc)?)
}

/// Loads `stream` and returns the machine that it names.
///
/// # Errors
///
/// A [`LoadFault`] if the stream is refused or a read fails. `loader` keeps the images that it had.
pub fn load(loader: &mut Loader, alloc: Global, stream: Vec<u8>) -> Result<Option<u32>, LoadFault>
    ensures set { loads loader.new ≡ loads loader.old }
    ensures taken { OnOk result (AreKept (loads loader.old) (kept loader.new)) }
    ensures refused { OnErr result (kept loader.new ≡ kept loader.old) }
{
    let mut source = MemSource::new(stream, Vec::new(alloc), Vec::new(alloc));
    loader.load(&mut source, None)
}

/// Returns the lamp in the first of `images`, if that is one.
pub fn lamp_of(images: &[Image]) -> Option<Lamp> {
    let image = images.first()?;
    let mut cells = ArrayVec::new();
    for cell in 0..image.len() {
        cells.try_push(image.get(cell)).ok()?;
    }
    restored(&cells).ok()
}
