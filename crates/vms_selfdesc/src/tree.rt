// The self-description of a set's images.
ghost use Rattle.std.specs.Prelude.{◌≡◌, ◌<◌, Some, map, length, IfOk, string_bytes};
ghost use Rattle.serde_json.specs.Read.{read};
ghost use Rattle.vms_spec.specs.Streams.{AreReady, longest_text};
ghost use Rattle.vms_desc.specs.Described.{described};
ghost use Rattle.vms_image.specs.Typed.{state_of};
ghost use Rattle.vms_selfdesc.specs.Calls.{CanWriteDevices, CanWriteTree};
ghost use Rattle.vms_selfdesc.specs.Drafts.{Adds, Lays};
ghost use Rattle.vms_selfdesc.specs.Tree.{device_trees, described_tree, described_text};

use crate::devices::write_device;
use crate::draft::Draft;
use crate::fields::Lister;
use std::alloc::Global;
use vms_desc::DescSet;
use vms_image::Image;
use vms_io::NoMemory;

// The first room for a text, enough for that of a small board.
const FIRST_ROOM: usize = 8192;

// The room for each cell, enough for an entry with a short path.
const ROOM_OF_CELL: usize = 48;

/// Returns the self-description of the stream of `images`, one for each device of `set` in its
/// order.
///
/// It is JSON without spaces, in which the keys of each object are in byte order. For each device
/// it lists what its section holds, element by element with path, size in bytes and type, and the
/// defaults of cells that aren't in the section. It has less than 16,777,216 bytes.
///
/// # Requires
///
/// `images` are ready under `set`: they can be written.
///
/// # Errors
///
/// [`NoMemory`] if memory runs out.
pub fn describe(alloc: Global, set: &DescSet, images: &[Image]) -> Result<String, NoMemory>
    requires { AreReady (described set.now) (map state_of images.now) }
    ensures text { let text = described_text (described set.now) (map state_of images.now) in
        IfOk result (λ s. string_bytes s ≡ text) }
    ensures reads { let tree = described_tree (described set.now) (map state_of images.now) in
        IfOk result (λ s. read (string_bytes s) ≡ Some tree) }
    ensures short { IfOk result (λ s. length (string_bytes s) < longest_text) }
{
    let mut draft = Draft::with_capacity(alloc, room_for(images))?;
    write_tree(set, images, &mut draft);
    let Draft { text, .. } = draft;
    text.finish()
}

// Returns a room that most texts of these images fit in. A text that grows is copied, and leaves holes in memory.
fn room_for(images: &[Image]) -> usize {
    let mut room = FIRST_ROOM;
    for image in images {
        room = room.saturating_add(image.len() as usize * ROOM_OF_CELL);
    }
    room
}

pub(crate) fn write_tree(set: &DescSet, images: &[Image], draft: &mut Draft)
    requires { CanWriteTree set.now images.now draft.old }
    ensures { let tree = described_tree (described set.now) (map state_of images.now) in
        Lays draft.old draft.new tree }
{
    draft.text.push("{\"devices\":[");
    write_devices(set, images, draft);
    draft.text.push("]}");
}

fn write_devices(set: &DescSet, images: &[Image], draft: &mut Draft)
    requires { CanWriteDevices set.now images.now draft.old }
    ensures { let states = map state_of images.now in
        let trees = device_trees (described set.now) (described set.now).devices states in
        Adds draft.old draft.new trees }
{
    for (device, image) in images.iter().enumerate() {
        write_device(&Lister { set, image }, device as u32, draft);
    }
}
