// The descriptions of devices and their subsections.
ghost use Rattle.std.specs.Prelude.{[], ◌∷◌, None, get_or};
ghost use Rattle.serde_json.specs.Data.{array};
ghost use Rattle.serde_json.specs.View.{items_of};
ghost use Rattle.vms_spec.specs.Images.{own_cells};
ghost use Rattle.vms_spec.specs.declared.Part.TheVariants as parts;
ghost use Rattle.vms_desc.specs.Asks.{first_cell};
ghost use Rattle.vms_desc.specs.Described.{device_at};
ghost use Rattle.vms_desc.specs.Parts.{sub_at};
ghost use Rattle.vms_image.specs.Typed.{state_of};
ghost use Rattle.vms_selfdesc.specs.Calls.{CanWriteDevice, CanWriteFields, CanWriteSub};
ghost use Rattle.vms_selfdesc.specs.Drafts.{Adds, IsPlain, Lays, PutsSub, PutsName};
ghost use Rattle.vms_selfdesc.specs.Listing.{set_in, numbers_in, part_list};
ghost use Rattle.vms_selfdesc.specs.Tree.{entry_tree, list_tree, sub_tree, sub_trees, device_tree};

use crate::draft::{Draft, begin, put_flag, put_natural, put_text};
use crate::fields::{Lister, Place, list_part};
use crate::text::Text;
use vms_desc::{Desc, Device, Part};

// Writes the entries of the fields of a part.
fn write_fields(lister: &Lister, part: Part, place: Place, draft: &mut Draft)
    requires { CanWriteFields lister.now draft.old part place.cell }
    ensures { let numbers = numbers_in lister.now in
        let entries = part_list (set_in lister.now) part place.sent numbers [] place.cell in
        Lays draft.old draft.new (list_tree entry_tree entries) }
{
    draft.text.push("[");
    draft.later = false;
    list_part(lister, part, place, draft);
    draft.text.push("]");
}

// Appends the members of a subsection after its fields.
fn put_sub_head(text: &mut Text, desc: &Desc, sent: bool)
    requires { IsPlain desc.now.name }
    ensures { PutsSub text.old text.new desc.now.name sent desc.now.version }
{
    put_text(text, "name", desc.name.as_str());
    put_flag(text, "sent", sent);
    put_natural(text, "version", desc.version as u64);
}

// Writes a subsection, whether or not it is in the stream.
fn write_sub(lister: &Lister, device: u32, sub: u32, draft: &mut Draft)
    requires { CanWriteSub lister.now draft.old device sub }
    ensures { let set = set_in lister.now in
        let image = state_of lister.now.image.now in
        let at = first_cell set (parts.Sub device sub) in
        let s = sub_at (device_at set device) sub in
        let tree = sub_tree set image.numbers at s (get_or image.came sub None) in
        Adds draft.old draft.new (tree ∷ []) }
{
    let part = Part::Sub(device, sub);
    let sent = lister.image.came(sub).is_some();
    let cell = lister.set.first_cell(part);
    begin(draft, "{\"fields\":");
    write_fields(lister, part, Place { sent, cell }, draft);
    put_sub_head(&mut draft.text, lister.set.desc(part), sent);
    draft.text.push("}");
    draft.later = true;
}

// Writes the subsections, one after the other.
fn write_subs(lister: &Lister, device: u32, draft: &mut Draft)
    requires { CanWriteDevice lister.now draft.old device }
    ensures { let set = set_in lister.now in
        let image = state_of lister.now.image.now in
        let d = device_at set device in
        let trees = sub_trees set image.numbers (own_cells set d) d.subs image.came in
        Lays draft.old draft.new (array (items_of trees)) }
{
    draft.text.push("[");
    draft.later = false;
    for sub in 0..lister.set.sub_count(device) {
        write_sub(lister, device, sub, draft);
    }
    draft.text.push("]");
}

// Appends the members of a device between its fields and its subsections.
fn put_name(text: &mut Text, device: &Device)
    requires { IsPlain device.now.desc.name }
    ensures { PutsName text.old text.new device.now.instance device.now.desc.name }
{
    put_natural(text, "instance_id", device.instance as u64);
    put_text(text, "name", device.desc.name.as_str());
}

// Writes a device with its subsections.
pub(crate) fn write_device(lister: &Lister, device: u32, draft: &mut Draft)
    requires { CanWriteDevice lister.now draft.old device }
    ensures { let set = set_in lister.now in
        let tree = device_tree set (device_at set device) (state_of lister.now.image.now) in
        Adds draft.old draft.new (tree ∷ []) }
{
    let described = lister.set.device(device);
    let place = Place {
        sent: true,
        cell: 0,
    };
    begin(draft, "{\"fields\":");
    write_fields(lister, Part::Device(device), place, draft);
    put_name(&mut draft.text, described);
    draft.text.push(",\"subsections\":");
    write_subs(lister, device, draft);
    put_natural(&mut draft.text, "version", described.desc.version as u64);
    draft.text.push("}");
    draft.later = true;
}
