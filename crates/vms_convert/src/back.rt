// The image of an older set that the numbers of a newer device become.
ghost use Rattle.std.specs.Prelude.{◌≡◌};
ghost use Rattle.vms_desc.specs.Described.{described};
ghost use Rattle.vms_desc.specs.Parts.{HasPart};
ghost use Rattle.vms_convert.specs.Bringing.{part_of};
ghost use Rattle.vms_convert.specs.OneDevice.{CanTake, ComesBack, HasBareImage, HasCell, HasCellImage, HasImage, HasSubImage};
ghost use Rattle.vms_convert.specs.OneDevice.{MarksAll, MarksOne, PutsDefault, PutsDefaults, SettlesAll, SettlesOne, TakesAll, default_in};

use crate::taking::take_part;
use vms_desc::{DescSet, Part};
use vms_image::Image;
use vms_walk::PartAt;

/// Makes the default image of device `device` of `to` the one that the numbers of `source` become.
///
/// `partners` holds the newer cell of each older cell.
pub(crate) fn come_back(
    to: &DescSet,
    device: u32,
    source: &Image,
    partners: &[Option<u32>],
    image: &mut Image,
)
    requires { CanTake to.now device source.now partners.now image.old }
    ensures { ComesBack to.now device source.now partners.now image.new }
{
    take_all(to, device, image, source, partners);
    settle(to, device, image);
    mark(to, device, image);
}

/// Returns `part` at the version that `set` gives it.
pub(crate) fn whole_part(set: &DescSet, part: Part) -> PartAt
    requires { HasPart (described set.now) part }
    ensures { result ≡ part_of (described set.now) part }
{
    PartAt {
        part,
        version: set.desc(part).version,
        base: set.first_cell(part),
    }
}

// Sets each cell that is in the bytes to its partner's number. All subsections are taken to be present.
fn take_all(set: &DescSet, device: u32, image: &mut Image, source: &Image, partners: &[Option<u32>])
    requires { CanTake set.now device source.now partners.now image.old }
    ensures { TakesAll set.now device source.now partners.now image.old image.new }
{
    let own = whole_part(set, Part::Device(device));
    take_part(set, own, image, source, partners);
    for sub in 0..set.sub_count(device) {
        let part = whole_part(set, Part::Sub(device, sub));
        take_part(set, part, image, source, partners);
    }
}

// Sets the cells of each subsection that isn't needed to their defaults.
fn settle(set: &DescSet, device: u32, image: &mut Image)
    requires { HasImage set.now device image.old }
    ensures { SettlesAll set.now device image.old image.new }
{
    for sub in 0..set.sub_count(device) {
        settle_sub(set, device, sub, image);
    }
}

// Does this for one subsection.
fn settle_sub(set: &DescSet, device: u32, sub: u32, image: &mut Image)
    requires { HasSubImage set.now device sub image.old }
    ensures { SettlesOne set.now device sub image.old image.new }
{
    if !set.is_needed(device, sub, image) {
        put_defaults(set, device, sub, image);
    }
}

// Sets the cells of a subsection to their defaults.
fn put_defaults(set: &DescSet, device: u32, sub: u32, image: &mut Image)
    requires { HasSubImage set.now device sub image.old }
    ensures { PutsDefaults set.now device sub image.old image.new }
{
    let part = Part::Sub(device, sub);
    let first = set.first_cell(part);
    let end = first + set.cells_of(part);
    for cell in first..end {
        put_default(set, device, cell, image);
    }
}

// Sets a cell to its default.
fn put_default(set: &DescSet, device: u32, cell: u32, image: &mut Image)
    requires { HasCellImage set.now device cell image.old }
    ensures { PutsDefault set.now device cell image.old image.new }
{
    image.set(cell, default_of(set, device, cell));
}

// Returns the default of a cell.
fn default_of(set: &DescSet, device: u32, cell: u32) -> i128
    requires { HasCell set.now device cell }
    ensures { result ≡ default_in set.now device cell }
{
    set.defaults(device).get(cell)
}

// Marks each subsection that the numbers need as present, at its version.
fn mark(set: &DescSet, device: u32, image: &mut Image)
    requires { HasBareImage set.now device image.old }
    ensures { MarksAll set.now device image.old image.new }
{
    for sub in 0..set.sub_count(device) {
        mark_sub(set, device, sub, image);
    }
}

// Marks one subsection, if the numbers need it.
fn mark_sub(set: &DescSet, device: u32, sub: u32, image: &mut Image)
    requires { HasSubImage set.now device sub image.old }
    ensures { MarksOne set.now device sub image.old image.new }
{
    if set.is_needed(device, sub, image) {
        let version = set.desc(Part::Sub(device, sub)).version;
        image.mark(sub, Some(version));
    }
}
