// The loader of a set's streams.
ghost use Rattle.std.specs.Prelude.{◌≡◌, ◌<◌, map, IfOk, OnOk, OnErr};
ghost use Rattle.vms_spec.specs.Images.{default_image};
ghost use Rattle.vms_parts.specs.Views.{set_of};
ghost use Rattle.vms_load.specs.Good.{AreKept, kept_once};
ghost use Rattle.vms_image.specs.Typed.{AreImagesOf, state_of as untyped};
ghost use Rattle.vms_load.specs.Staging.{AreShaped};

use crate::LoadFault;
use crate::lean::LeanLoader;
use crate::staged::default_images;
use std::alloc::Global;
use vms_desc::DescSet;
use vms_image::Image;
use vms_io::{NoMemory, Source};

/// A loader that keeps the images of the last stream that it took.
///
/// A stream that is refused changes nothing.
#[derive(Drop)]
pub struct Loader {
    // Reads a stream, and has its images until it is complete.
    lean: LeanLoader,
    // The images of the last stream that was taken.
    images: Vec<Image>,
    ghost kept: { AreShaped (set_of lean.set.parts) images.items },
    ghost whole: { 0 < lean.taken → AreKept (set_of lean.set.parts)
        (map untyped images.items) } by { kept_once lean.taken (set_of lean.set.parts)
            (map untyped images.items) },
}

impl Loader {
    ghost use Rattle.vms_desc.specs.Described.{described};
    ghost use Rattle.vms_load.specs.Kept.{loads, kept, taken_by};
    ghost use Rattle.vms_io.specs.Told.{intake};
    ghost use Rattle.vms_load.specs.Going.{LoadReads};
    ghost use Rattle.vms_load.specs.Staging.{IsMachine, accepted_of};

    /// Creates a loader of `set` that has taken no stream yet, with each image at its defaults.
    ///
    /// All memory that loads need is allocated here.
    ///
    /// # Errors
    ///
    /// - [`NoMemory`]: out of memory.
    pub fn new(alloc: Global, set: DescSet) -> Result<Loader, NoMemory>
        ensures set { IfOk result (λ loader. loads loader ≡ described set) }
        ensures images { IfOk result (λ loader.
            kept loader ≡ map (default_image (described set)) (described set).devices) }
        ensures taken { IfOk result (λ loader. taken_by loader ≡ 0) }
    {
        let images = default_images(alloc, &set)?;
        let lean = LeanLoader::new(alloc, set)?;
        Ok(Loader { lean, images })
    }

    /// Reads one stream from `source` and returns the number of the machine that it names, or none.
    ///
    /// If `only` is given, that machine is the only one accepted, instead of all of the set's.
    /// After an error the loader's images and `taken` are unchanged.
    ///
    /// # Errors
    ///
    /// - [`LoadFault::Refused`]: the input isn't a stream of the set. Exactly the bytes up to the
    ///   end of the offending unit have been taken. These end at the refusal's offset for
    ///   `Invalid`, and are all bytes if the input ends inside the unit.
    /// - [`LoadFault::ReadFault`]: the source failed.
    ///
    /// # Requires
    ///
    /// `only`, if given, is the number of a machine of the set.
    pub fn load<S: Source>(
        &mut self,
        source: &mut S,
        only: Option<u32>,
    ) -> Result<Option<u32>, LoadFault>
        requires { IsMachine (loads self.old).machines only }
        ensures reads { LoadReads (intake S.Source source.old) (intake S.Source source.new)
            (loads self.old) (accepted_of (loads self.old) only) (kept self.new)
            (taken_by self.new) result }
        ensures machine { IfOk result (IsMachine (loads self.old).machines) }
        ensures whole { OnOk result (AreKept (loads self.old) (kept self.new)) }
        ensures images { OnErr result (kept self.new ≡ kept self.old) }
        ensures taken { OnErr result (taken_by self.new ≡ taken_by self.old) }
        ensures set { loads self.new ≡ loads self.old }
    {
        let machine = self.lean.load(source, only)?;
        self.lean.exchange(&mut self.images);
        Ok(machine)
    }

    /// Returns the images of the last stream that was taken, or the defaults before the first.
    ///
    /// There is one for each device of the set, in the set's order.
    pub fn images(&self) -> &[Image]
        ensures images { map untyped result.now ≡ kept self.now }
        ensures of { AreImagesOf (loads self.now) result.now }
        ensures shape { AreShaped (loads self.now) result.now }
        ensures whole { 0 < taken_by self.now → AreKept (loads self.now) (kept self.now) }
    {
        &self.images
    }

    /// Returns the number of bytes of the last stream that was taken, or 0 before the first.
    pub fn taken(&self) -> u64
        ensures { result ≡ taken_by self.now }
    {
        self.lean.taken()
    }

    /// Returns the set whose streams the loader reads.
    pub fn set(&self) -> &DescSet
        ensures { described result.now ≡ loads self.now }
    {
        self.lean.set()
    }
}
