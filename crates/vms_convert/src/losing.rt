// What a conversion would lose: a cell, a device that isn't valid, or the machine.
ghost use Rattle.std.specs.Prelude.{◌≡◌};
ghost use Rattle.vms_desc.specs.Described.{described};
ghost use Rattle.vms_load.specs.Staging.{IsMachine, name_of};
ghost use Rattle.vms_convert.specs.Losing.{AreWritable, KeepsMachine, first_cell_at};
ghost use Rattle.vms_convert.specs.Needs.{CanCheck, CanJudge, ChecksImage, FindsInvalid, JudgesLoaded};
ghost use Rattle.vms_convert.specs.OneDevice.{HasDevice};

use crate::fault::Loss;
use crate::returns::LostCell;
use vms_desc::{DescSet, find_name};
use vms_image::Image;
use vms_load::LeanLoader;
use vms_write::ready;

/// Returns the machine's number in the target, or what is lost first as an error.
pub(crate) fn judge(
    to: &DescSet,
    loader: &LeanLoader,
    machine: Option<u32>,
    images: &[Image],
    lost: Option<LostCell>,
) -> Result<Option<u32>, Loss>
    requires { CanJudge to.now loader.now machine images.now lost }
    ensures { JudgesLoaded to.now loader.now machine images.now result }
{
    if let Some(lost) = lost {
        return Err(Loss {
            section: Some(lost.device),
            cell: Some(lost.cell),
        });
    }
    if let Some(device) = first_invalid(to, loader.set(), images) {
        return Err(Loss {
            section: Some(device),
            cell: first_cell(loader.set(), device),
        });
    }
    machine_under(to, loader.set(), machine)
}

// Returns the first device of the newer set whose image isn't valid in the target.
fn first_invalid(to: &DescSet, newest: &DescSet, images: &[Image]) -> Option<u32>
    requires { AreWritable (described to.now) images.now }
    ensures { FindsInvalid to.now newest.now images.now result }
{
    let devices = newest.parts().devices.as_slice().len() as u32;
    for device in 0..devices {
        if !is_valid(to, newest, device, images) {
            return Some(device);
        }
    }
    None
}

// Checks whether the target's image of a device of the newer set may be written.
fn is_valid(to: &DescSet, newest: &DescSet, device: u32, images: &[Image]) -> bool
    requires { CanCheck to.now newest.now images.now device }
    ensures { ChecksImage to.now newest.now images.now device result }
{
    let described = newest.device(device);
    match to.find(described.desc.name.as_bytes(), described.instance) {
        Some(own) => ready(to, own, &images[own as usize]),
        None => true,
    }
}

// Returns the first cell of a device, if it has one.
fn first_cell(set: &DescSet, device: u32) -> Option<u32>
    requires { HasDevice set.now device }
    ensures { result ≡ first_cell_at (described set.now) device }
{
    if set.cells(device) == 0 {
        None
    } else {
        Some(0)
    }
}

// Returns the number that a machine of the newer set has in the target.
fn machine_under(to: &DescSet, newest: &DescSet, machine: Option<u32>) -> Result<Option<u32>, Loss>
    requires { IsMachine (described newest.now).machines machine }
    ensures { KeepsMachine (described to.now) (name_of (described newest.now) machine) result }
{
    let Some(number) = machine else {
        return Ok(None);
    };
    let names = newest.parts().machines.as_slice();
    match find_name(
        to.parts().machines.as_slice(),
        names[number as usize].as_bytes(),
    ) {
        Some(own) => Ok(Some(own)),
        None => Err(Loss {
            section: None,
            cell: None,
        }),
    }
}
