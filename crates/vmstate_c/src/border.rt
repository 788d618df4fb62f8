// The functions that C calls.
ghost use Rattle.std.specs.Prelude.{◌≡◌, ◌≤◌, if◌then◌else◌, length};
ghost use Rattle.vmstate_c.specs.Border.{Answered, Lands, both, do_fit, put_in};
ghost use Rattle.vmstate_c.specs.Returned.{LandsAll, Returned, full};

use crate::call::{Ended, call};
use crate::request::{Answer, Request, Stored, StoredAnswer, TOO_SMALL};
use crate::stored::{Packed, pack};
use std::alloc::Global;

const NO_MEMORY: Answer = Answer {
    status: 10,
    out: 0,
    notes: 0,
};

const NO_MEMORY_STORED: StoredAnswer = StoredAnswer {
    status: 10,
    out: 0,
    notes: 0,
    files: 0,
    bytes: 0,
};

/// Runs the command in `request`, as `vmstate` does, and copies its outputs to `out` and `notes`.
///
/// `out` gets standard output and `notes` standard error; the result has the status and both
/// lengths. Bytes of the buffers after the texts are unchanged. If a buffer is too small for its
/// text, the status is 100 and the lengths are those that are needed. If memory runs out before or
/// after the command's work, the status is 10 and the lengths are 0. In both cases the buffers are
/// unchanged.
#[unsafe(no_mangle)]
pub extern "C" fn vmstate_call(
    alloc: Global,
    request: &Request<'_>,
    out: &mut [u8],
    notes: &mut [u8],
) -> Answer
    ensures { Answered request.now (both out.old notes.old) (both out.new notes.new) result }
{
    match call(alloc, request) {
        Ok(ended) => land(&ended, out, notes),
        Err(_) => NO_MEMORY,
    }
}

// Copies both texts into the caller's buffers, if they fit.
fn land(ended: &Ended, out: &mut [u8], notes: &mut [u8]) -> Answer
    ensures { Lands ended.now.status (both ended.now.out.items ended.now.notes.items)
        (both out.old notes.old) (both out.new notes.new) result }
{
    let fits = do_fit(ended, out, notes);
    if fits {
        put(&ended.out, out);
        put(&ended.notes, notes);
    }
    Answer {
        status: status_if(fits, ended.status),
        out: ended.out.len(),
        notes: ended.notes.len(),
    }
}

/// Runs the command in `request` like [`vmstate_call`], and also returns the files that it stored.
///
/// These are the files of the folder after the command that `request` doesn't have with the same
/// bytes, in the order of their names. `bytes` gets the name and the bytes of each, one after the
/// other, and `files` where they are. What follows them in the buffers is unchanged. The status is
/// 100 if one of the four buffers is too small, and 10 with lengths of 0 if memory runs out before
/// or after the command's work. In both cases the buffers are unchanged.
#[unsafe(no_mangle)]
pub extern "C" fn vmstate_call_stored(
    alloc: Global,
    request: &Request<'_>,
    out: &mut [u8],
    notes: &mut [u8],
    files: &mut [Stored],
    bytes: &mut [u8],
) -> StoredAnswer
    ensures { Returned request.now (full (both out.old notes.old) files.old bytes.old)
        (full (both out.new notes.new) files.new bytes.new) result }
{
    let Ok(ended) = call(alloc, request) else {
        return NO_MEMORY_STORED;
    };
    match pack(alloc, &ended.folder, request.files) {
        Ok(stored) => land_all(&Whole { ended, stored }, out, notes, files, bytes),
        Err(_) => NO_MEMORY_STORED,
    }
}

// The texts of a call and the files that it stored.
#[derive(Drop)]
struct Whole {
    ended: Ended,
    stored: Packed,
}

// Copies the texts and the files into the caller's buffers, if they fit.
fn land_all(
    whole: &Whole,
    out: &mut [u8],
    notes: &mut [u8],
    files: &mut [Stored],
    bytes: &mut [u8],
) -> StoredAnswer
    ensures { LandsAll whole.now.ended.status
        (full (both whole.now.ended.out.items whole.now.ended.notes.items)
        whole.now.stored.files.items whole.now.stored.bytes.items)
        (full (both out.old notes.old) files.old bytes.old)
        (full (both out.new notes.new) files.new bytes.new) result }
{
    let Whole { ended, stored } = whole;
    let fits = do_fit(ended, out, notes)
        && stored.files.len() <= files.len()
        && stored.bytes.len() <= bytes.len();
    if fits {
        put(&ended.out, out);
        put(&ended.notes, notes);
        put(&stored.files, files);
        put(&stored.bytes, bytes);
    }
    StoredAnswer {
        status: status_if(fits, ended.status),
        out: ended.out.len(),
        notes: ended.notes.len(),
        files: stored.files.len(),
        bytes: stored.bytes.len(),
    }
}

// Reports whether both texts fit their buffers.
fn do_fit(ended: &Ended, out: &[u8], notes: &[u8]) -> bool
    ensures { result ≡ do_fit (both ended.now.out.items ended.now.notes.items)
        (both out.now notes.now) }
{
    ended.out.len() <= out.len() && ended.notes.len() <= notes.len()
}

// Returns the status of a call, or that of a buffer that is too small.
fn status_if(fits: bool, status: u8) -> u32
    ensures { result ≡ (if fits then status else 100) }
{
    if fits { u32::from(status) } else { TOO_SMALL }
}

// Copies `items` to the beginning of a buffer that has room for them.
fn put<T: Copy>(items: &[T], room: &mut [T])
    requires { length items.now ≤ length room.old }
    ensures { room.new ≡ put_in items.now room.old }
{
    room[..items.len()].copy_from_slice(items);
}
