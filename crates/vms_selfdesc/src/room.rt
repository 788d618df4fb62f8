// Descriptions for which the memory is taken beforehand.
ghost use Rattle.std.specs.Prelude.{◌≡◌, ◌≤◌, ◌<◌, Some, map, length, string_capacity};
ghost use Rattle.serde_json.specs.Read.{read};
ghost use Rattle.vms_spec.specs.Streams.{AreReady, longest_text};
ghost use Rattle.vms_desc.specs.Described.{described};
ghost use Rattle.vms_image.specs.Typed.{state_of};
ghost use Rattle.vms_selfdesc.specs.Tree.{described_tree, described_text};

use crate::draft::Draft;
use crate::tree::write_tree;
use std::alloc::Global;
use vms_desc::DescSet;
use vms_image::Image;
use vms_io::NoMemory;

// The most bytes that a description section may have.
const LONGEST_TEXT: usize = 16_777_215;

/// The memory for the self-description of any images of any set, so that it can be written without
/// allocating.
///
/// It has 16,777,215 bytes. On systems that provide memory when a page is first written, it takes
/// as much as the texts that are written.
#[derive(Drop)]
pub struct DescriptionRoom {
    draft: Draft,
    ghost roomy: { 16777215 ≤ string_capacity draft.text.written },
}

impl DescriptionRoom {
    /// Takes the memory.
    ///
    /// # Errors
    ///
    /// [`NoMemory`] if memory runs out.
    pub fn new(alloc: Global) -> Result<Self, NoMemory> {
        let draft = Draft::with_capacity(alloc, LONGEST_TEXT)?;
        Ok(DescriptionRoom { draft })
    }

    /// Returns the self-description of the stream of `images`, one for each device of `set` in its
    /// order: the text that [`describe`](crate::describe) returns.
    ///
    /// It allocates nothing and can't fail. The text of an earlier call is overwritten.
    ///
    /// # Requires
    ///
    /// `images` are ready under `set`: they can be written.
    pub fn describe(&mut self, set: &DescSet, images: &[Image]) -> &str
        requires { AreReady (described set.now) (map state_of images.now) }
        ensures text { result.now ≡ described_text (described set.now) (map state_of images.now) }
        ensures reads { let tree = described_tree (described set.now) (map state_of images.now) in
            read result.now ≡ Some tree }
        ensures short { length result.now < longest_text }
    {
        self.draft.clear();
        write_tree(set, images, &mut self.draft);
        self.draft.text.written.as_str()
    }
}
