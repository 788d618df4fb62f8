// The listing of an input.
ghost use Rattle.std.specs.Prelude.{◌≡◌, ◌≤◌, true, length, map};
ghost use Rattle.std.specs.List.{list_all};
ghost use Rattle.vms_json.specs.Texts.{value_in};
ghost use Rattle.vms_analyze.specs.Told.{is_good_device};
ghost use Rattle.vms_analyze.specs.Wanted.{found, wants};
ghost use Rattle.vms_analyze.specs.Listing.{IsLastPlace, listing_of, longest_input};
ghost use Rattle.vms_analyze.specs.Read.{devices_in, next};
ghost use Rattle.vms_analyze.specs.Typed.{ReadsAs, device_of};
ghost use Rattle.vms_analyze.specs.Calls.{ListsAs, ShowsAs};

use crate::devices::devices_in;
use crate::fault::{AnalyzeFault, AnalyzeReason};
use crate::members::Unread;
use crate::place::last_place;
use crate::told::Device;
use crate::walk::{Stop, Walk};
use json::Scratch;
use std::alloc::Global;
use vms_json::{NoNode, read_bytes};
use vms_marks::DESCRIPTION_FRONT;

/// Returns the text of an input that has a listing, or why it has none.
///
/// # Errors
///
/// - [`AnalyzeFault::Refused`]: the input has no listing.
/// - [`AnalyzeFault::NoMemory`]: out of memory.
pub(crate) fn list(alloc: Global, input: &[u8]) -> Result<Vec<u8>, AnalyzeFault>
    requires { length input.now ≤ longest_input }
    ensures { ListsAs input.now result }
{
    match last_place(input) {
        Some(place) => list_at(alloc, input, place),
        None => Err(AnalyzeFault::Refused {
            at: input.len() as u64,
            reason: AnalyzeReason::NoDescription,
        }),
    }
}

// Does the same for the description at `place`.
fn list_at(alloc: Global, input: &[u8], place: usize) -> Result<Vec<u8>, AnalyzeFault>
    requires few { length input.now ≤ longest_input }
    requires last { IsLastPlace input.now place }
    ensures { ListsAs input.now result }
{
    let mut scratch = Scratch::new(alloc);
    match described(alloc, &input[place + DESCRIPTION_FRONT..], &mut scratch) {
        Ok(devices) => show(alloc, &input[..place], &devices),
        Err(Unread::Shape) => Err(AnalyzeFault::Refused {
            at: place as u64,
            reason: AnalyzeReason::Shape,
        }),
        Err(Unread::NoMemory) => Err(AnalyzeFault::NoMemory),
    }
}

// Returns the devices that a text describes. The tree of its values is freed before the devices are
// used.
fn described<'a>(
    alloc: Global,
    text: &'a [u8],
    scratch: &'a mut Scratch,
) -> Result<Vec<Device<'a>>, Unread>
    ensures { ReadsAs (λ v. map device_of v.items) (next (value_in text.now) devices_in) result }
{
    match read_bytes(alloc, text, scratch) {
        Ok(value) => devices_in(alloc, &value.root()),
        Err(NoNode::Syntax) => Err(Unread::Shape),
        Err(NoNode::NoMemory) => Err(Unread::NoMemory),
    }
}

// Returns the lines of a stream that is as described.
fn show(alloc: Global, stream: &[u8], devices: &[Device]) -> Result<Vec<u8>, AnalyzeFault>
    requires { list_all is_good_device (map device_of devices.now) ≡ true }
    ensures { ShowsAs (listing_of (found (wants (map device_of devices.now)) 0 0 stream.now))
        result }
{
    let mut walk = Walk {
        input: stream,
        place: 0,
        id: 0,
        text: Vec::new(alloc),
    };
    match walk.whole(devices) {
        Ok(()) => Ok(walk.text),
        Err(Stop::Differs) => Err(AnalyzeFault::Refused {
            at: walk.place as u64,
            reason: AnalyzeReason::Mismatch,
        }),
        Err(Stop::NoMemory) => Err(AnalyzeFault::NoMemory),
    }
}
