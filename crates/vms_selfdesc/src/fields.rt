// The entries of the fields of a part, with arrays and structures expanded.
ghost use Rattle.std.specs.Prelude.{◌≡◌, string_bytes};
ghost use Rattle.vms_spec.specs.declared.Part.TheVariants as parts;
ghost use Rattle.vms_parts.specs.Views.{field_of};
ghost use Rattle.vms_selfdesc.specs.Calls.{CanListElements, CanListField, CanListPart, CanListRun, CanPutSent, HasField};
ghost use Rattle.vms_selfdesc.specs.Entries.{listed_if, sent_entry};
ghost use Rattle.vms_selfdesc.specs.Listing.{Lists, is_field_sent, set_in, numbers_in};
ghost use Rattle.vms_selfdesc.specs.Listing.{item_at, elements_at, run_at, field_within, part_at};

use crate::draft::Draft;
use crate::entry::{write_cell, write_sent};
use vms_desc::{Count, DescSet, Field, Part};
use vms_image::Image;
use vms_kinds::Item;

// What the walk over the fields needs.
#[derive(Clone, Copy)]
pub(crate) struct Lister<'a> {
    pub(crate) set: &'a DescSet,
    pub(crate) image: &'a Image,
}

// Whether a part or an element is in the stream, and its first cell.
#[derive(Clone, Copy)]
pub(crate) struct Place {
    pub(crate) sent: bool,
    pub(crate) cell: u32,
}

// A field by its number, and its first cell.
#[derive(Clone, Copy)]
struct At {
    field: u32,
    cell: u32,
}

// Lists one element of a field. The cycle of calls closes at `list_struct`.
#[cycle(list)]
#[inline(always)]
fn list_item(lister: &Lister, field: &Field, place: Place, draft: &mut Draft)
    requires { CanListElements lister.now draft.old (field_of field.now) place.cell 1 0 }
    ensures { let entries = item_at lister.now (field_of field.now) place draft.old in
        Lists draft.old draft.new entries }
{
    match field.item {
        Item::Num(kind) => write_cell(draft, place.sent, kind, field.default),
        Item::Equal { kind, .. } => list_sent(draft, place.sent, kind.width() as u64, "equal"),
        Item::Unused { bytes } => list_sent(draft, place.sent, bytes as u64, "unused"),
        Item::Struct(number) => {
            let kept = draft.path.len();
            draft.path.enter(".");
            list_struct(lister, number, place, draft);
            draft.path.leave(kept);
        }
    }
}

// Lists the fields of one element of structure `number`. Only this function and `list_elements` of
// the recursion aren't inlined: their callers know what kind of part they list.
#[cycle(list)]
fn list_struct(lister: &Lister, number: u32, place: Place, draft: &mut Draft)
    requires { CanListPart lister.now draft.old (parts.Struct number) place.cell }
    ensures { let entries = part_at lister.now (parts.Struct number) place draft.old in
        Lists draft.old draft.new entries }
{
    list_part(lister, Part::Struct(number), place, draft);
}

// Lists something without a cell, if it is in the stream.
fn list_sent(draft: &mut Draft, sent: bool, size: u64, word: &str)
    requires { CanPutSent draft.old word.now }
    ensures { let entry = sent_entry (string_bytes draft.old.path.text) size word.now in
        Lists draft.old draft.new (listed_if sent entry) }
{
    if sent {
        write_sent(draft, size, word);
    }
}

// Lists elements one after the other, as many as are printed.
#[cycle(list)]
fn list_elements(lister: &Lister, field: &Field, place: Place, count: u32, draft: &mut Draft)
    requires { CanListElements lister.now draft.old (field_of field.now) place.cell count 12 }
    ensures { let entries = elements_at lister.now (field_of field.now) place count draft.old in
        Lists draft.old draft.new entries }
{
    let size = lister.set.item_cells(field.item);
    let kept = draft.path.len();
    let mut cell = place.cell;
    for number in 0..count {
        draft.path.enter_element(number);
        list_item(lister, field, Place { cell, ..place }, draft);
        draft.path.leave(kept);
        cell += size;
    }
}

// Checks whether a field of a part is in the stream.
#[inline(always)]
fn is_sent(lister: &Lister, part: Part, within: Place, field: u32) -> bool
    requires { HasField lister.now part within.cell field }
    ensures { let set = set_in lister.now in
        let numbers = numbers_in lister.now in
        result ≡ is_field_sent set part within.cell field within.sent numbers }
{
    let version = lister.set.desc(part).version;
    within.sent
        && lister
            .set
            .is_there(part, within.cell, field, version, lister.image)
}

// Lists one field of a part.
#[cycle(list)]
#[inline(always)]
fn list_field(lister: &Lister, part: Part, within: Place, at: At, draft: &mut Draft)
    requires { CanListField lister.now draft.old part within at }
    ensures { let entries = field_within lister.now part within at draft.old in
        Lists draft.old draft.new entries }
{
    let set = lister.set;
    let field = &set.desc(part).fields.as_slice()[at.field as usize];
    let sent = is_sent(lister, part, within, at.field);
    let count = set.elements(part, within.cell, at.field, lister.image);
    let kept = draft.path.len();
    draft.path.enter(field.name.as_str());
    let place = Place {
        sent,
        cell: at.cell,
    };
    list_run(lister, field, place, count, draft);
    draft.path.leave(kept);
}

// Lists the elements of a field under its path, of which an array has `count`.
#[cycle(list)]
#[inline(always)]
fn list_run(lister: &Lister, field: &Field, place: Place, count: u32, draft: &mut Draft)
    requires { CanListRun lister.now draft.old (field_of field.now) place.cell count }
    ensures { let entries = run_at lister.now (field_of field.now) place count draft.old in
        Lists draft.old draft.new entries }
{
    match field.count {
        Count::One => list_item(lister, field, place, draft),
        _ => list_elements(lister, field, place, count, draft),
    }
}

// Lists the fields of a part, or of one element of a structure.
#[cycle(list)]
#[inline(always)]
pub(crate) fn list_part(lister: &Lister, part: Part, place: Place, draft: &mut Draft)
    requires { CanListPart lister.now draft.old part place.cell }
    ensures { let entries = part_at lister.now part place draft.old in
        Lists draft.old draft.new entries }
{
    for field in 0..lister.set.field_count(part) {
        let cell = lister.set.field_start(part, place.cell, field);
        list_field(lister, part, place, At { field, cell }, draft);
    }
}
