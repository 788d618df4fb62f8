// What has been read of a stream so far.
ghost use Rattle.std.specs.Prelude.{◌≡◌, ◌<◌, ◌≤◌, ◌^◌, not, false, length, replicate, IfOk};
ghost use Rattle.vms_spec.specs.Lists.{position};
ghost use Rattle.vms_desc.specs.Described.{described};
ghost use Rattle.vms_load.specs.Calls.{AreDefaults, AreReset, CanConfigureBy, CanFind, Configures, Ends, HasImages, IsRestarted, MayBegin};
ghost use Rattle.vms_load.specs.Staging.{AreShaped, HasBegun, IsAccepted};

use crate::LoadFault;
use crate::fault::refused;
use arrayvec::ArrayVec;
use std::alloc::Global;
use vms_desc::{DescSet, Text, find_name};
use vms_frames::{Between, Tail};
use vms_image::Image;
use vms_io::NoMemory;
use vms_marks::Name;
use vms_spec::Reason;

/// What has been read of a stream so far.
#[derive(Drop)]
pub(crate) struct Staged {
    /// One image for each device of the set.
    pub(crate) images: Vec<Image>,
    /// For each device, whether its section has come.
    pub(crate) came: ArrayVec<bool, 64>,
    /// The number of the machine that the stream named.
    pub(crate) machine: Option<u32>,
    /// Whether the stream's sections have footers.
    pub(crate) tail: Tail,
}

/// Returns the image of each device of `set` at its defaults.
///
/// # Errors
///
/// - [`NoMemory`]: out of memory.
pub fn default_images(alloc: Global, set: &DescSet) -> Result<Vec<Image>, NoMemory>
    ensures { IfOk result (λ images. AreDefaults set.now images.items) }
{
    let devices = set.parts().devices.as_slice().len();
    let mut images = Vec::with_capacity(alloc, devices)?;
    for device in 0..devices {
        images.push(Image::new(alloc, set, device as u32)?)?;
    }
    Ok(images)
}

/// Returns room for what is read of a stream of `set`.
///
/// # Errors
///
/// - [`NoMemory`]: out of memory.
pub(crate) fn spare_room(alloc: Global, set: &DescSet) -> Result<Staged, NoMemory>
    ensures { IfOk result (HasImages set.now) }
{
    Ok(Staged {
        images: default_images(alloc, set)?,
        came: ArrayVec::new(),
        machine: None,
        tail: Tail::Unknown,
    })
}

/// Makes `staged` the state before a stream: no device has come.
pub(crate) fn restart(set: &DescSet, staged: &mut Staged)
    requires { HasImages set.now staged.old }
    ensures { IsRestarted set.now staged.new }
{
    reset(set, &mut staged.images);
    staged.came = none_came(set.parts().devices.as_slice().len());
    staged.machine = None;
    staged.tail = Tail::Unknown;
}

// Sets each image to what `Image::new` gives.
fn reset(set: &DescSet, images: &mut [Image])
    requires { AreShaped (described set.now) images.old }
    ensures { AreReset set.now images.new }
{
    for device in 0..images.len() {
        images[device].reset(set, device as u32);
    }
}

// Returns a list that says of `devices` devices that none has come.
fn none_came(devices: usize) -> ArrayVec<bool, 64>
    requires { devices ≤ 64 }
    ensures { result.items ≡ replicate devices false }
{
    let mut came = ArrayVec::new();
    for _device in 0..devices {
        came.push(false);
    }
    came
}

/// Begins the section of `device` at `version`, and marks the device as come.
pub(crate) fn begin_section(staged: &mut Staged, device: u32, version: u32)
    requires { MayBegin staged.old device }
    ensures { HasBegun staged.old device version staged.new }
{
    staged.came[device as usize] = true;
    staged.images[device as usize].set_version(version);
}

/// Accepts the configuration at offset `at` if its machine is accepted, and returns what may
/// follow.
///
/// # Errors
///
/// - [`LoadFault::Refused`]: `WrongMachine`.
pub(crate) fn configure(
    set: &DescSet,
    only: Option<u32>,
    staged: &mut Staged,
    name: &Name,
    at: u64,
) -> Result<Option<Between>, LoadFault>
    requires set { CanConfigureBy set.now only staged.old }
    ensures { Configures set.now only staged.old staged.new name.now.items at result }
{
    match machine_of(set.parts().machines.as_slice(), only, name) {
        None => Err(refused(None, at, Reason::WrongMachine)),
        Some(machine) => {
            staged.machine = Some(machine);
            staged.tail = Tail::Footed;
            Ok(Some(Between::AfterConfiguration))
        }
    }
}

// Returns the number of the accepted machine `name`, if there is one.
fn machine_of(machines: &[Text], only: Option<u32>, name: &[u8]) -> Option<u32>
    requires { CanFind machines.now only }
    ensures { IsAccepted machines.now only name.now result }
{
    match only {
        None => find_name(machines, name),
        Some(machine) if machines[machine as usize].as_bytes() == name => Some(machine),
        Some(_) => None,
    }
}

/// Accepts the end mark at offset `at` if each device's section has come. Returns none: no section
/// may follow.
///
/// # Errors
///
/// - [`LoadFault::Refused`]: `MissingSection`, for the first device that hasn't come.
pub(crate) fn take_end_mark(staged: &Staged, at: u64) -> Result<Option<Between>, LoadFault>
    ensures { Ends staged.now at result }
{
    match first_missing(&staged.came) {
        None => Ok(None),
        Some(device) => Err(refused(Some(device), at, Reason::MissingSection)),
    }
}

// Returns the first device that hasn't come, if there is one.
fn first_missing(came: &[bool]) -> Option<u32>
    requires { length came.now < 2 ^ 32 }
    ensures { result ≡ position not 0 came.now }
{
    for (i, here) in came.iter().enumerate() {
        if !*here {
            return Some(i as u32);
        }
    }
    None
}
