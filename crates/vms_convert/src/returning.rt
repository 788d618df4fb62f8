// The image of an older set that one newer device becomes, and the first cell that it doesn't carry.
ghost use Rattle.std.specs.Prelude.{◌≡◌, ◌<◌, length};
ghost use Rattle.vms_spec.specs.Layout.{device_cells};
ghost use Rattle.vms_desc.specs.Described.{described, device_at};
ghost use Rattle.vms_image.specs.Typed.{IsImageOf, default_at};
ghost use Rattle.vms_check.specs.Partners.{device_partners};
ghost use Rattle.vms_check_laws.specs.Pairing.{AreOfKinds};
ghost use Rattle.vms_load.specs.Lean.{loads};
ghost use Rattle.vms_convert.specs.Needs.{Returns};

use crate::back::come_back;
use crate::carrying::{first_difference, give_all};
use crate::giving::Gift;
use vms_desc::DescSet;
use vms_image::Image;
use vms_load::LeanLoader;

/// A device of the older set, and the loader's device of the same name and instance.
#[derive(Clone, Copy)]
pub(crate) struct Pair<'a> {
    pub(crate) to: &'a DescSet,
    pub(crate) device: u32,
    pub(crate) loader: &'a LeanLoader,
    pub(crate) other: u32,
}

/// Makes `image` what the numbers of `source` become in the older set, and returns the first cell
/// that it doesn't carry.
///
/// `carried` takes the numbers that it carries.
pub(crate) fn return_device(
    pair: Pair,
    source: &Image,
    partners: &[Option<u32>],
    image: &mut Image,
    carried: &mut Image,
) -> Option<u32>
    requires device { pair.device < length (described pair.to.now).devices }
    requires other { pair.other < length (loads pair.loader.now).devices }
    requires of { IsImageOf (loads pair.loader.now) pair.other source.now }
    requires kinds { let e = device_at (loads pair.loader.now) pair.other in
        AreOfKinds (device_cells (loads pair.loader.now) e) source.now.numbers }
    requires partners { let d = device_at (described pair.to.now) pair.device in
        let e = device_at (loads pair.loader.now) pair.other in
        partners.now ≡ device_partners (described pair.to.now) (loads pair.loader.now) d e }
    requires fresh { image.old ≡ default_at (described pair.to.now) pair.device }
    requires empty { carried.old ≡ default_at (loads pair.loader.now) pair.other }
    ensures { Returns pair.entry source.now.numbers image.new result }
{
    come_back(pair.to, pair.device, source, partners, image);
    give_all(pair.to, pair.device, Gift { image, partners }, carried);
    first_difference(source, carried)
}
