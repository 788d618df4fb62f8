// The loader of one stream.
ghost use Rattle.std.specs.Prelude.{◌≡◌, map, IfOk, OnOk, OnErr};
ghost use Rattle.vms_parts.specs.Views.{set_of};
ghost use Rattle.vms_load.specs.Good.{AreKept};
ghost use Rattle.vms_image.specs.Typed.{AreImagesOf, state_of as untyped};
ghost use Rattle.vms_load.specs.Staging.{AreShaped};

use crate::LoadFault;
use crate::staged::{Staged, spare_room};
use crate::stream::stream;
use std::alloc::Global;
use std::mem::swap;
use vms_desc::DescSet;
use vms_image::Image;
use vms_io::{NoMemory, Source};

/// A loader that keeps no earlier stream, so it needs half the memory of a `Loader`.
///
/// After an error its images mean nothing.
#[derive(Drop)]
pub struct LeanLoader {
    set: DescSet,
    taken: u64,
    staged: Staged,
    ghost shaped: { AreShaped (set_of set.parts) staged.images.items },
}

impl LeanLoader {
    ghost use Rattle.vms_desc.specs.Described.{described};
    ghost use Rattle.vms_load.specs.Lean.{loads, has, taken_by};
    ghost use Rattle.vms_io.specs.Told.{intake};
    ghost use Rattle.vms_load.specs.Going.{LoadReads};
    ghost use Rattle.vms_load.specs.Staging.{IsMachine, accepted_of};

    /// Creates a loader of `set` that has taken no stream yet.
    ///
    /// All memory that loads need is allocated here.
    ///
    /// # Errors
    ///
    /// - [`NoMemory`]: out of memory.
    pub fn new(alloc: Global, set: DescSet) -> Result<LeanLoader, NoMemory>
        ensures set { IfOk result (λ loader. loads loader ≡ described set) }
        ensures taken { IfOk result (λ loader. taken_by loader ≡ 0) }
    {
        let staged = spare_room(alloc, &set)?;
        Ok(LeanLoader {
            set,
            taken: 0,
            staged,
        })
    }

    /// Reads one stream from `source` and returns the number of the machine that it names, or none.
    ///
    /// `only` and the bytes that are taken are as for `Loader::load`.
    ///
    /// # Errors
    ///
    /// - [`LoadFault::Refused`]: the input isn't a stream of the set.
    /// - [`LoadFault::ReadFault`]: the source failed.
    ///
    /// # Requires
    ///
    /// `only`, if given, is the number of a machine of the set.
    pub fn load<S: Source>(
        &mut self,
        source: &mut S,
        only: Option<u32>,
    ) -> Result<Option<u32>, LoadFault>
        requires { IsMachine (loads self.old).machines only }
        ensures reads { LoadReads (intake S.Source source.old) (intake S.Source source.new)
            (loads self.old) (accepted_of (loads self.old) only) (has self.new)
            (taken_by self.new) result }
        ensures machine { IfOk result (IsMachine (loads self.old).machines) }
        ensures whole { OnOk result (AreKept (loads self.old) (has self.new)) }
        ensures taken { OnErr result (taken_by self.new ≡ taken_by self.old) }
        ensures set { loads self.new ≡ loads self.old }
    {
        let taken = stream(&self.set, only, &mut self.staged, source)?;
        self.taken = taken;
        Ok(self.staged.machine)
    }

    /// Exchanges the images of the stream that was taken for `images`, of the same set.
    pub(crate) fn exchange(&mut self, images: &mut Vec<Image>)
        requires { AreShaped (loads self.old) images.old.items }
        ensures taken { images.new ≡ self.old.staged.images }
        ensures set { loads self.new ≡ loads self.old }
        ensures long { taken_by self.new ≡ taken_by self.old }
    {
        swap(&mut self.staged.images, images);
    }

    /// Returns the images of the stream that was taken, one for each device of the set.
    ///
    /// Before the first stream and after an error they mean nothing.
    pub fn images(&self) -> &[Image]
        ensures images { map untyped result.now ≡ has self.now }
        ensures of { AreImagesOf (loads self.now) result.now }
        ensures shape { AreShaped (loads self.now) result.now }
    {
        &self.staged.images
    }

    /// Returns the number of bytes of the last stream that was taken, or 0 before the first.
    pub fn taken(&self) -> u64
        ensures { result ≡ taken_by self.now }
    {
        self.taken
    }

    /// Returns the set whose streams the loader reads.
    pub fn set(&self) -> &DescSet
        ensures { described result.now ≡ loads self.now }
    {
        &self.set
    }
}
