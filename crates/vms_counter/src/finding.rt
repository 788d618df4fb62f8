// A state of an older set that shows why a newer one refuses it.
ghost use Rattle.std.specs.Prelude.{◌≡◌, IfOk};
ghost use Rattle.vms_desc.specs.Described.{described};
ghost use Rattle.vms_load.specs.Kept.{loads};
ghost use Rattle.vms_counter_laws.specs.Counters.{Counters};
ghost use Rattle.vms_counter.specs.Calls.{FindsFor, FindsIn, HasSecond, IsFirstOf};
ghost use Rattle.vms_counter.specs.Found.{answer_of, IsFindingOf};
ghost use Rattle.vms_counter.specs.Trying.{HasFailed, IsTrial};

use crate::candidates::machine_for;
use crate::room::room;
use crate::second::raised;
use crate::trying::{Trial, tried};
use std::alloc::Global;
use vms_check::{Mismatch, Verdict, check};
use vms_desc::DescSet;
use vms_image::Image;
use vms_io::NoMemory;
use vms_load::{Loader, Refusal, default_images};

/// The result of [`counter`].
#[derive(Drop)]
pub enum Finding {
    /// The newer set reads what the older one writes.
    Compatible,
    /// No candidate shows the mismatch. Holds the first rule that fails.
    NoState(Mismatch),
    /// A state that the older set writes and the newer one refuses.
    State {
        /// The first rule that fails.
        mismatch: Mismatch,
        /// The machine that the state's stream names, by its number in the older set.
        machine: Option<u32>,
        /// One image for each of the older set's devices.
        images: Vec<Image>,
        /// Where and why the newer set refuses the stream. The device is one of the newer set.
        refusal: Refusal,
    },
}

/// Checks whether the set of `new` reads what `old` writes. If not, looks for a state that shows
/// it.
///
/// The state is the first candidate that `old` may write and `new` refuses, if there is one. The
/// set of `new` is unchanged.
///
/// # Errors
///
/// [`NoMemory`] if memory runs out.
pub fn counter(alloc: Global, old: &DescSet, new: &mut Loader) -> Result<Finding, NoMemory>
    ensures found { IfOk result (λ f.
        Counters (described old.now) (loads new.old) (answer_of (described old.now) f)) }
    ensures of { IfOk result (IsFindingOf (described old.now)) }
    ensures set { loads new.new ≡ loads new.old }
{
    match check(old, new.set()) {
        Verdict::Accepted => Ok(Finding::Compatible),
        Verdict::Refused(mismatch) => show(alloc, old, mismatch, new),
    }
}

// Returns the first candidate that shows the mismatch.
fn show(
    alloc: Global,
    old: &DescSet,
    mismatch: Mismatch,
    new: &mut Loader,
) -> Result<Finding, NoMemory>
    requires { IsFirstOf old.now new.old mismatch }
    ensures { FindsIn old.now new.old new.new result }
{
    let machine = machine_for(old, new.set(), &mismatch);
    let room = room(alloc, old)?;
    let trial = Trial {
        old,
        mismatch,
        machine,
        room,
    };
    show_first(alloc, &trial, new)
}

fn show_first(alloc: Global, trial: &Trial, new: &mut Loader) -> Result<Finding, NoMemory>
    requires { IsTrial trial.now (loads new.old) }
    ensures { FindsFor trial.now new.old new.new result }
{
    let images = default_images(alloc, trial.old)?;
    match tried(alloc, trial, &images, new)? {
        Some(refusal) => Ok(Finding::State {
            mismatch: trial.mismatch,
            machine: trial.machine,
            images,
            refusal,
        }),
        None => show_second(alloc, trial, new),
    }
}

// Tries the second candidate, as the first doesn't show the mismatch.
fn show_second(alloc: Global, trial: &Trial, new: &mut Loader) -> Result<Finding, NoMemory>
    requires { HasFailed trial.now (loads new.old) }
    ensures { FindsFor trial.now new.old new.new result }
{
    match raised(alloc, trial.old, new.set(), &trial.mismatch)? {
        None => Ok(Finding::NoState(trial.mismatch)),
        Some(images) => show_last(alloc, trial, images, new),
    }
}

fn show_last(
    alloc: Global,
    trial: &Trial,
    images: Vec<Image>,
    new: &mut Loader,
) -> Result<Finding, NoMemory>
    requires { HasSecond trial.now new.old images.items }
    ensures { FindsFor trial.now new.old new.new result }
{
    match tried(alloc, trial, &images, new)? {
        Some(refusal) => Ok(Finding::State {
            mismatch: trial.mismatch,
            machine: trial.machine,
            images,
            refusal,
        }),
        None => Ok(Finding::NoState(trial.mismatch)),
    }
}
