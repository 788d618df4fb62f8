// The numbers of a newer device that the older set's image gives back.
ghost use Rattle.std.specs.Prelude.{◌≡◌, length};
ghost use Rattle.vms_convert.specs.OneDevice.{CanGive, CanGiveSub, GivesAll, GivesSub};
ghost use Rattle.vms_convert.specs.Returning.{FirstDifference};

use crate::back::whole_part;
use crate::giving::{Gift, give_part};
use vms_desc::{DescSet, Part};
use vms_image::Image;
use vms_walk::PartAt;

/// Copies the number of each cell that is in the bytes of `gift` into the cell's partner in
/// `target`.
pub(crate) fn give_all(set: &DescSet, device: u32, gift: Gift, target: &mut Image)
    requires { CanGive set.now device gift target.old }
    ensures { GivesAll set.now device gift.entry target.old target.new }
{
    give_part(set, whole_part(set, Part::Device(device)), gift, target);
    for sub in 0..set.sub_count(device) {
        give_sub(set, device, sub, gift, target);
    }
}

// Does this for a subsection, if it is present.
fn give_sub(set: &DescSet, device: u32, sub: u32, gift: Gift, target: &mut Image)
    requires { CanGiveSub set.now device sub gift target.old }
    ensures { GivesSub set.now device sub gift.entry target.old target.new }
{
    if let Some(version) = gift.image.came(sub) {
        let part = Part::Sub(device, sub);
        let spot = PartAt {
            part,
            version,
            base: set.first_cell(part),
        };
        give_part(set, spot, gift, target);
    }
}

/// Returns the first cell at which the numbers of two images of one device differ.
pub(crate) fn first_difference(wanted: &Image, there: &Image) -> Option<u32>
    requires { length wanted.now.numbers ≡ length there.now.numbers }
    ensures { FirstDifference wanted.now.numbers there.now.numbers result }
{
    for cell in 0..wanted.len() {
        if wanted.get(cell) != there.get(cell) {
            return Some(cell);
        }
    }
    None
}
