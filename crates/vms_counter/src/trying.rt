// A state is tried: its stream is written to memory and read by a loader.
ghost use Rattle.std.specs.Prelude.{◌≡◌, IfOk};
ghost use Rattle.vms_counter.specs.Calls.{CanStream, CanTry, ReadsBytes, TriesOn, stream_in};

use std::alloc::Global;
use vms_check::Mismatch;
use vms_desc::DescSet;
use vms_image::Image;
use vms_io::{MemSink, MemSource, NoMemory};
use vms_load::{LoadFault, Loader, Refusal};
use vms_write::{are_ready, write_stream};

/// What all candidates of two sets share.
#[derive(Clone, Copy)]
pub(crate) struct Trial<'a> {
    /// The older set.
    pub old: &'a DescSet,
    /// The first mismatch.
    pub mismatch: Mismatch,
    /// The machine that the streams name, by its number in the older set.
    pub machine: Option<u32>,
    /// The room for a stream, in bytes.
    pub room: u32,
}

// Returns the stream of these images. The room is always enough.
fn stream_of(alloc: Global, trial: &Trial, images: &[Image]) -> Result<Vec<u8>, NoMemory>
    requires { CanStream trial.now images.now }
    ensures { IfOk result (λ stream. stream.items ≡ stream_in trial.now images.now) }
{
    let mut sink = MemSink::new(alloc, trial.room, Vec::new(alloc))?;
    match write_stream(trial.old, trial.machine, images, None, &mut sink) {
        Ok(()) => Ok(sink.bytes().to_vec(alloc)?),
        // No call is to fail, and the room is never filled.
        Err(_) => unreachable!(),
    }
}

// Returns where a loader refuses these bytes, if it does.
fn refusal_in(alloc: Global, bytes: Vec<u8>, new: &mut Loader) -> Option<Refusal>
    ensures { ReadsBytes new.old new.new bytes.items result }
{
    let mut source = MemSource::new(bytes, Vec::new(alloc), Vec::new(alloc));
    match new.load(&mut source, None) {
        Ok(_) => None,
        Err(LoadFault::Refused(refusal)) => Some(refusal),
        // No call is to fail.
        Err(LoadFault::ReadFault) => unreachable!(),
    }
}

/// Returns where the loader refuses the stream of `images`, if they are ready and it does.
///
/// # Errors
///
/// [`NoMemory`] if memory runs out.
pub(crate) fn tried(
    alloc: Global,
    trial: &Trial,
    images: &[Image],
    new: &mut Loader,
) -> Result<Option<Refusal>, NoMemory>
    requires { CanTry trial.now images.now }
    ensures { TriesOn trial.now images.now new.old new.new result }
{
    if !are_ready(trial.old, images) {
        return Ok(None);
    }
    let stream = stream_of(alloc, trial, images)?;
    Ok(refusal_in(alloc, stream, new))
}
