// The description of a board's last save, kept for the next one.
ghost use Rattle.std.specs.Prelude.{◌≡◌, IfOk, IfSome, map};
ghost use Rattle.vms_board.specs.Imaging.{AreOfSet, IsSetOf};
ghost use Rattle.vms_board.specs.Last.{CanDescribe, Describes, IsLast};
ghost use Rattle.vms_desc.specs.Described.{described};
ghost use Rattle.vms_image.specs.Typed.{AreImagesOf, state_of};
ghost use Rattle.vms_spec.specs.Streams.{AreReady};

use crate::machine::Machine;
use std::alloc::Global;
use std::mem::replace;
use vms_desc::DescSet;
use vms_image::Image;
use vms_io::NoMemory;
use vms_selfdesc::{are_alike, describe};

/// A description with the images that it describes, and the number of their set.
#[derive(Drop)]
pub(crate) struct Kept {
    pub(crate) number: u8,
    pub(crate) images: Vec<Image>,
    pub(crate) text: String,
    // The images of the save before, to be filled again.
    pub(crate) spare: Option<Vec<Image>>,
}

/// The description of the last save of a family's board, so that the next save doesn't make it again
/// if it is the same.
///
/// It also keeps the images of the last two saves, which a later save under the same set fills again.
#[derive(Drop)]
pub struct LastDescription {
    pub(crate) alloc: Global,
    pub(crate) kept: Option<Kept>,
}

impl LastDescription {
    /// Creates a value without a description. Nothing is allocated.
    pub fn new<M: Machine>(alloc: Global) -> LastDescription
        ensures { IsLast M.family result }
    {
        LastDescription { alloc, kept: None }
    }

    /// Returns the allocator of the description.
    pub fn alloc(&self) -> Global {
        self.alloc
    }
}

/// Takes the spare images out of `last`, if they are of the set with the number `number`. Otherwise it
/// returns `None`, and `last` stays.
pub(crate) fn take_spare<M: Machine>(last: &mut LastDescription, number: u8) -> Option<Vec<Image>>
    requires { IsLast M.family last.old }
    ensures of { IfSome result (λ images. AreImagesOf (M.family.set number) images.items) }
    ensures last { IsLast M.family last.new }
    ensures alloc { last.new.alloc ≡ last.old.alloc }
{
    match &mut last.kept {
        Some(kept) if kept.number == number => kept.spare.take(),
        _ => None,
    }
}

/// Returns `images` with their description, which is the one in `kept` if that is the same.
///
/// # Errors
///
/// [`NoMemory`] if memory runs out.
///
/// # Requires
///
/// `images` are ready under `own`, which is the family's set with the number `number`, and `kept` is
/// of the family.
pub(crate) fn describe_by<M: Machine>(
    alloc: Global,
    number: u8,
    own: &DescSet,
    images: Vec<Image>,
    kept: Option<Kept>,
) -> Result<Kept, NoMemory>
    requires { CanDescribe M.family number own.now images.items kept }
    ensures { IfOk result (Describes M.family own.now images.items) }
{
    let Some(mut last) = kept else {
        return describe_anew::<M>(alloc, number, own, images);
    };
    if last.number == number && are_alike(own, &last.images, &images) {
        last.spare = Some(replace(&mut last.images, images));
        return Ok(last);
    }
    describe_anew::<M>(alloc, number, own, images)
}

/// Returns `images` with their description, which is made.
///
/// # Errors
///
/// [`NoMemory`] if memory runs out.
///
/// # Requires
///
/// `images` are ready under `own`, which is the family's set with the number `number`.
pub(crate) fn describe_anew<M: Machine>(
    alloc: Global,
    number: u8,
    own: &DescSet,
    images: Vec<Image>,
) -> Result<Kept, NoMemory>
    requires own { IsSetOf M.family own.now number }
    requires of { AreOfSet own.now images.items }
    requires ready { AreReady (described own.now) (map state_of images.items) }
    ensures { IfOk result (Describes M.family own.now images.items) }
{
    let text = describe(alloc, own, &images)?;
    Ok(Kept {
        number,
        images,
        text,
        spare: None,
    })
}
