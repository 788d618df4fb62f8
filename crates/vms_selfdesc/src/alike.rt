// Images that have the same self-description.
ghost use Rattle.std.specs.Bool.{OnTrue};
ghost use Rattle.std.specs.Prelude.{◌≡◌, None, get_or, length, map};
ghost use Rattle.vms_spec.specs.Images.{own_cells};
ghost use Rattle.vms_spec.specs.Streams.{AreReady};
ghost use Rattle.vms_spec.specs.declared.Part.TheVariants as parts;
ghost use Rattle.vms_parts.specs.Views.{field_of};
ghost use Rattle.vms_desc.specs.Asks.{first_cell};
ghost use Rattle.vms_desc.specs.Described.{described, device_at};
ghost use Rattle.vms_desc.specs.Parts.{sub_at};
ghost use Rattle.vms_image.specs.Typed.{AreImagesOf, state_of};
ghost use Rattle.vms_selfdesc.specs.Alike.{AlikeAt, AreKeptOf, AreOfDevice, HaveField, HaveKinds, HavePart, HaveSub, IsPartAlike, SameCountAt};
ghost use Rattle.vms_selfdesc.specs.Alike.{firsts, is_plain, is_steady, seconds, set_of};
ghost use Rattle.vms_selfdesc.specs.Tree.{described_text, device_tree, sub_tree, sub_trees};

use vms_desc::{Count, DescSet, Field, Part};
use vms_image::Image;
use vms_kinds::Item;

// Two images of a device of a set.
#[derive(Clone, Copy)]
struct Pair<'a> {
    set: &'a DescSet,
    first: &'a Image,
    second: &'a Image,
}

/// Returns `true` only if `first` and `second` have the same self-description.
///
/// It makes no text. A device with the same bytes and the same subsections in both isn't walked. For
/// any other it returns `true` if the same subsections have come in both and, for each part, one of
/// these is so:
///
/// - The part has no structures, and each of its fields is present in both or in neither, with the
///   same number of elements.
/// - All numbers of the device are the same.
///
/// # Requires
///
/// `first` and `second` are images of `set`'s devices, and are ready under it: they can be written.
pub fn are_alike(set: &DescSet, first: &[Image], second: &[Image]) -> bool
    requires first { AreReady (described set.now) (map state_of first.now) }
    requires second { AreReady (described set.now) (map state_of second.now) }
    requires of_first { AreImagesOf (described set.now) first.now }
    requires of_second { AreImagesOf (described set.now) second.now }
    ensures { let text = described_text (described set.now) in
        OnTrue result (text (map state_of first.now) ≡ text (map state_of second.now)) }
{
    for (device, image) in first.iter().enumerate() {
        let pair = Pair {
            set,
            first: image,
            second: &second[device],
        };
        if !is_kept_alike(&pair, device as u32) {
            return false;
        }
    }
    true
}

// Returns `true` only if both images of a device have the same self-description.
fn is_kept_alike(pair: &Pair, device: u32) -> bool
    requires { AreKeptOf pair.now device }
    ensures { let tree = device_tree (set_of pair.now) (device_at (set_of pair.now) device) in
        OnTrue result (tree (state_of pair.now.first.now) ≡ tree (state_of pair.now.second.now)) }
{
    is_same(pair, device) || is_device_alike(pair, device)
}

// Returns `true` only if both images of a device are in the same state.
fn is_same(pair: &Pair, device: u32) -> bool
    requires { AreKeptOf pair.now device }
    ensures { OnTrue result (state_of pair.now.first.now ≡ state_of pair.now.second.now) }
{
    have_same_bytes(pair.first, pair.second) && have_same_subs(pair, device)
}

fn is_device_alike(pair: &Pair, device: u32) -> bool
    requires { AreOfDevice pair.now device }
    ensures { let tree = device_tree (set_of pair.now) (device_at (set_of pair.now) device) in
        OnTrue result (tree (state_of pair.now.first.now) ≡ tree (state_of pair.now.second.now)) }
{
    is_part_alike(pair, Part::Device(device), 0) && are_subs_alike(pair, device)
}

fn are_subs_alike(pair: &Pair, device: u32) -> bool
    requires { AreOfDevice pair.now device }
    ensures { let set = set_of pair.now in
        let d = device_at set device in
        let at = own_cells set d in
        OnTrue result (sub_trees set (firsts pair.now) at d.subs pair.now.first.now.came
        ≡ sub_trees set (seconds pair.now) at d.subs pair.now.second.now.came) }
{
    for sub in 0..pair.set.sub_count(device) {
        if !is_sub_alike(pair, device, sub) {
            return false;
        }
    }
    true
}

fn is_sub_alike(pair: &Pair, device: u32, sub: u32) -> bool
    requires { HaveSub pair.now device sub }
    ensures { let set = set_of pair.now in
        let at = first_cell set (parts.Sub device sub) in
        let s = sub_at (device_at set device) sub in
        OnTrue result (sub_tree set (firsts pair.now) at s (get_or pair.now.first.now.came sub None)
        ≡ sub_tree set (seconds pair.now) at s (get_or pair.now.second.now.came sub None)) }
{
    let part = Part::Sub(device, sub);
    if pair.first.came(sub).is_some() != pair.second.came(sub).is_some() {
        return false;
    }
    is_part_alike(pair, part, pair.set.first_cell(part))
}

// Returns `true` only if the same is listed of a part, whose first cell is `base`.
fn is_part_alike(pair: &Pair, part: Part, base: u32) -> bool
    requires { HavePart pair.now part base }
    ensures { let set = set_of pair.now in
        OnTrue result (IsPartAlike set part base (firsts pair.now) (seconds pair.now)) }
{
    are_fields_alike(pair, part, base) || have_same_numbers(pair.first, pair.second)
}

// Returns `true` only if a part has no structures and its fields have the same counts in both.
fn are_fields_alike(pair: &Pair, part: Part, base: u32) -> bool
    requires { HavePart pair.now part base }
    ensures { let set = set_of pair.now in
        OnTrue result (IsPartAlike set part base (firsts pair.now) (seconds pair.now)) }
{
    for field in 0..pair.set.field_count(part) {
        if !is_field_alike(pair, part, base, field) {
            return false;
        }
    }
    true
}

// Returns `true` only if a field is no structure and has the same count in both.
fn is_field_alike(pair: &Pair, part: Part, base: u32, field: u32) -> bool
    requires { HaveField pair.now part base field }
    ensures { OnTrue result (AlikeAt pair.now part base field) }
{
    let described = &pair.set.desc(part).fields.as_slice()[field as usize];
    is_plain(described.item) && (is_steady(described) || has_same_count(pair, part, base, field))
}

// Returns `true` only if a field is present in both or in neither, with the same number of elements.
fn has_same_count(pair: &Pair, part: Part, base: u32, field: u32) -> bool
    requires { HaveField pair.now part base field }
    ensures { OnTrue result (SameCountAt pair.now part base field) }
{
    let Pair { set, first, second } = *pair;
    let version = set.desc(part).version;
    let there = set.is_there(part, base, field, version, first);
    set.elements(part, base, field, first) == set.elements(part, base, field, second)
        && there == set.is_there(part, base, field, version, second)
}

fn is_plain(item: Item) -> bool
    ensures { result ≡ is_plain item }
{
    !matches!(item, Item::Struct(_))
}

// Returns whether a field is present, and with how many elements, whatever the numbers are.
fn is_steady(field: &Field) -> bool
    ensures { result ≡ is_steady (field_of field.now) }
{
    match field.count {
        Count::One | Count::Fixed(_) => field.test.is_none(),
        Count::Counted { .. } => false,
    }
}

fn have_same_numbers(first: &Image, second: &Image) -> bool
    requires { length first.now.numbers ≡ length second.now.numbers }
    ensures { OnTrue result (first.now.numbers ≡ second.now.numbers) }
{
    for cell in 0..first.len() {
        if first.get(cell) != second.get(cell) {
            return false;
        }
    }
    true
}

// Returns `true` only if all numbers are the same: then the bytes of all cells are.
fn have_same_bytes(first: &Image, second: &Image) -> bool
    requires { HaveKinds first.now second.now }
    ensures { OnTrue result (first.now.numbers ≡ second.now.numbers) }
{
    first.raw() == second.raw()
}

// Returns `true` only if the same subsections of a device came, at the same versions.
fn have_same_subs(pair: &Pair, device: u32) -> bool
    requires { AreOfDevice pair.now device }
    ensures { OnTrue result (pair.now.first.now.came ≡ pair.now.second.now.came) }
{
    for sub in 0..pair.set.sub_count(device) {
        if pair.first.came(sub) != pair.second.came(sub) {
            return false;
        }
    }
    true
}
