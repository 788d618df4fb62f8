// The images of an older set that all devices of the newest set become.
ghost use Rattle.vms_convert.specs.Needs.{CanReturnAll, CanReturnAt, CanReturnImage, ReturnsAll, ReturnsImage, ReturnsKept};
ghost use Rattle.vms_convert.specs.Returns.{IsEarlier};

use crate::recasting::recast_into;
use crate::returning::{Pair, return_device};
use crate::room::Route;
use vms_desc::DescSet;
use vms_image::Image;
use vms_load::LeanLoader;

/// A cell of a device of the newest set that isn't carried.
#[derive(Clone, Copy)]
pub(crate) struct LostCell {
    pub(crate) device: u32,
    pub(crate) cell: u32,
}

/// Makes `images` what the images of `loader` become in the older set, and returns the first cell
/// that they don't carry.
pub(crate) fn return_all(
    to: &DescSet,
    loader: &LeanLoader,
    routes: &mut [Route],
    images: &mut [Image],
) -> Option<LostCell>
    requires { CanReturnAll to.now loader.now routes.old images.old }
    ensures { ReturnsAll to.now loader.now images.new result }
{
    let mut lost = None;
    for device in 0..images.len() {
        let route = &mut routes[device];
        let pair = Pair {
            to,
            device: device as u32,
            loader,
            other: route.other,
        };
        let cell = return_at(pair, route, &mut images[device]);
        lost = earlier(lost, pair.other, cell);
    }
    lost
}

// Makes `image` what the newest set's device in the loader becomes.
fn return_at(pair: Pair, route: &mut Route, image: &mut Image) -> Option<u32>
    requires { CanReturnAt pair route.old image.old }
    ensures { ReturnsKept pair.entry image.new result }
{
    return_image(
        pair,
        &pair.loader.images()[pair.other as usize],
        route,
        image,
    )
}

// Makes `image` what `source` becomes. Its FIFOs move into counted arrays first, if the target keeps them so.
fn return_image(pair: Pair, source: &Image, route: &mut Route, image: &mut Image) -> Option<u32>
    requires { CanReturnImage pair source.now route.old image.old }
    ensures { ReturnsImage pair.entry source.now image.new result }
{
    match &mut route.recast {
        None => return_device(pair, source, &route.partners, image, &mut route.carried),
        Some(recast) => {
            recast_into(source, recast);
            return_device(pair, recast, &route.partners, image, &mut route.carried)
        }
    }
}

// Returns the earlier of two cells in the newest set's order: a known one, and one of this device.
fn earlier(known: Option<LostCell>, device: u32, cell: Option<u32>) -> Option<LostCell>
    ensures { IsEarlier known device cell result }
{
    match (known, cell) {
        (known, None) => known,
        (Some(known), Some(_)) if known.device < device => Some(known),
        (_, Some(cell)) => Some(LostCell { device, cell }),
    }
}
