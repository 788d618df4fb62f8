// The pairs of cells of an older and a newer device.
ghost use Rattle.std.specs.Prelude.{◌≡◌, ◌++◌, ◌<◌, length, replicate, IfOk, None, OnOk};
ghost use Rattle.vms_desc.specs.Described.{described, device_at};
ghost use Rattle.vms_check.specs.Partners.{device_partners};
ghost use Rattle.vms_convert.specs.Partnering.{AreArrays, HasRoom, IsBehind, IsNextStart, PairsElement, PairsField};
ghost use Rattle.vms_convert.specs.Partnering.{AtField, AtStart, CanPair, CanPairElement, CanPairField, CanPairItems, CanPairPresent};
ghost use Rattle.vms_convert.specs.Partnering.{CanPairSub, HasField, HaveFields};
ghost use Rattle.vms_convert.specs.Partnering.{arrays_on, elements_left, elements_on, items_in, partners_on, sub_on};

use std::alloc::{AllocError, Global};
use vms_check::{Side, at_own_version, fields_of, is_present, same_kind};
use vms_desc::{DescSet, Part, find_sub};
use vms_io::NoMemory;
use vms_kinds::Item;
use vms_parts::capacity;

// A field of a description and its first cell.
#[derive(Clone, Copy)]
struct Start {
    field: u32,
    cell: u32,
}

// The elements of a field: their item and their count.
#[derive(Clone, Copy)]
struct Elements {
    item: Item,
    count: u32,
}

// The two sets.
#[derive(Clone, Copy)]
struct Sets<'a> {
    old: &'a DescSet,
    new: &'a DescSet,
}

// The elements of one field in each set.
#[derive(Clone, Copy)]
struct Arrays<'a> {
    sets: Sets<'a>,
    one: Elements,
    other: Elements,
}

/// Returns for each cell of device `in_old` its partner, the cell of device `in_new` that it is
/// paired with, if one of its kind exists.
///
/// Present fields are paired by position, elements by number, structures field by field, and
/// subsections by name. Fields are those of the older set's versions; structures are at each side's
/// own version.
///
/// # Errors
///
/// [`NoMemory`] if memory runs out.
pub fn partners(
    alloc: Global,
    old: &DescSet,
    in_old: u32,
    new: &DescSet,
    in_new: u32,
) -> Result<Vec<Option<u32>>, NoMemory>
    requires old { in_old < length (described old.now).devices }
    requires new { in_new < length (described new.now).devices }
    ensures { let d = device_at (described old.now) in_old in
        let e = device_at (described new.now) in_new in
        let all = device_partners (described old.now) (described new.now) d e in
        IfOk result (λ partners. partners.items ≡ all) }
{
    let mut partners = Vec::with_capacity(alloc, old.cells(in_old) as usize)?;
    let older = at_own_version(old, Part::Device(in_old));
    let newer = Side {
        set: new,
        part: Part::Device(in_new),
        version: older.version,
    };
    pair_descs(older, newer, 0, &mut partners)?;
    for sub in 0..old.sub_count(in_old) {
        let older = at_own_version(old, Part::Sub(in_old, sub));
        pair_sub(older, new, in_new, &mut partners)?;
    }
    Ok(partners)
}

// Pairs a subsection with the one of the same name.
fn pair_sub(
    older: Side,
    new: &DescSet,
    in_new: u32,
    partners: &mut Vec<Option<u32>>,
) -> Result<(), AllocError>
    requires { CanPairSub older new.now in_new }
    ensures { let e = device_at (described new.now) in_new in
        let pairs = sub_on older.entry (described new.now) e in
        OnOk result (partners.new.items ≡ partners.old.items ++ pairs) }
{
    let name = older.set.desc(older.part).name.as_bytes();
    match find_sub(new.device(in_new).subs.as_slice(), name) {
        None => put_unpaired(older.set.cells_of(older.part), partners),
        Some(found) => {
            let newer = Side {
                set: new,
                part: Part::Sub(in_new, found),
                version: older.version,
            };
            pair_descs(older, newer, new.first_cell(newer.part), partners)
        }
    }
}

// Pairs two descriptions, where `first` is the first cell of the newer one.
#[cycle(pairing)]
fn pair_descs(
    old: Side,
    new: Side,
    first: u32,
    partners: &mut Vec<Option<u32>>,
) -> Result<(), AllocError>
    requires { CanPair old new first }
    ensures { let pairs = partners_on old.entry new.entry first in
        OnOk result (partners.new.items ≡ partners.old.items ++ pairs) }
{
    let mut start = Start {
        field: 0,
        cell: first,
    };
    for number in 0..old.set.field_count(old.part) {
        start = pair_field(old, number, new, start, partners)?;
    }
    Ok(())
}

// Pairs one field with the newer side's first present field from `start` on. Returns the start after that.
#[cycle(pairing)]
fn pair_field(
    old: Side,
    number: u32,
    new: Side,
    start: Start,
    partners: &mut Vec<Option<u32>>,
) -> Result<Start, AllocError>
    requires { CanPairField old new number start }
    ensures { let before = partners.old.items in
        let after = partners.new.items in
        IfOk result (λ next. PairsField old.entry new.entry number start next before after) }
{
    if is_present(&fields_of(old)[number as usize], old.version) {
        pair_present(old, number, new, next_start(new, start), partners)
    } else {
        put_unpaired(old.set.field_cells(old.part, number), partners)?;
        Ok(start)
    }
}

// Pairs one present field with a present field of the newer side, or with none.
#[cycle(pairing)]
fn pair_present(
    old: Side,
    number: u32,
    new: Side,
    found: Start,
    partners: &mut Vec<Option<u32>>,
) -> Result<Start, AllocError>
    requires { CanPairPresent old new number found }
    ensures { let before = partners.old.items in
        let after = partners.new.items in
        IfOk result (λ next. PairsField old.entry new.entry number found next before after) }
{
    if found.field < new.set.field_count(new.part) {
        pair_arrays(
            arrays_of(old, number, new, found.field),
            found.cell,
            partners,
        )?;
        Ok(behind(new, found))
    } else {
        put_unpaired(old.set.field_cells(old.part, number), partners)?;
        Ok(found)
    }
}

// Returns the elements of a field of each side.
fn arrays_of<'a>(old: Side<'a>, number: u32, new: Side<'a>, other: u32) -> Arrays<'a>
    requires { HaveFields old new number other }
    ensures { result ≡ arrays_on old.entry number new.entry other }
{
    Arrays {
        sets: Sets {
            old: old.set,
            new: new.set,
        },
        one: elements_of(old, number),
        other: elements_of(new, other),
    }
}

// Returns the elements of a field.
fn elements_of(side: Side, number: u32) -> Elements
    requires { HasField side number }
    ensures { result ≡ elements_on side.entry number }
{
    let field = &fields_of(side)[number as usize];
    Elements {
        item: field.item,
        count: capacity(field.count),
    }
}

// Returns the first present field from `start` on, or the end.
fn next_start(side: Side, start: Start) -> Start
    requires { AtStart side start }
    ensures { IsNextStart side.entry start result }
{
    let mut next = start;
    while next.field < side.set.field_count(side.part) {
        if is_present(&fields_of(side)[next.field as usize], side.version) {
            return next;
        }
        next = behind(side, next);
    }
    next
}

// Returns the start after a field.
fn behind(side: Side, start: Start) -> Start
    requires { AtField side start }
    ensures { IsBehind side.entry start result }
{
    Start {
        field: start.field + 1,
        cell: start.cell + side.set.field_cells(side.part, start.field),
    }
}

// Pairs elements with elements, where `first` is the first cell of the newer ones.
#[cycle(pairing)]
fn pair_arrays(
    arrays: Arrays,
    first: u32,
    partners: &mut Vec<Option<u32>>,
) -> Result<(), AllocError>
    requires arrays { AreArrays arrays }
    requires room { HasRoom arrays 0 first }
    ensures { let pairs = elements_left arrays.entry 0 first in
        OnOk result (partners.new.items ≡ partners.old.items ++ pairs) }
{
    let mut cell = first;
    for element in 0..arrays.one.count {
        cell = pair_element(arrays, element, cell, partners)?;
    }
    Ok(())
}

// Pairs one element with the newer one of its number, or with none. Returns the first cell of the next one.
#[cycle(pairing)]
fn pair_element(
    arrays: Arrays,
    element: u32,
    cell: u32,
    partners: &mut Vec<Option<u32>>,
) -> Result<u32, AllocError>
    requires { CanPairElement arrays element cell }
    ensures { let before = partners.old.items in
        let after = partners.new.items in
        IfOk result (λ next. PairsElement arrays.entry element cell next before after) }
{
    if element < arrays.other.count {
        pair_items(
            arrays.sets,
            arrays.one.item,
            arrays.other.item,
            cell,
            partners,
        )?;
        Ok(cell + arrays.sets.new.item_cells(arrays.other.item))
    } else {
        put_unpaired(arrays.sets.old.item_cells(arrays.one.item), partners)?;
        Ok(cell)
    }
}

// Pairs one element with another, whose first cell is `cell`: numbers if they are of one kind, and
// structures each at its own version.
#[cycle(pairing)]
fn pair_items(
    sets: Sets,
    one: Item,
    other: Item,
    cell: u32,
    partners: &mut Vec<Option<u32>>,
) -> Result<(), AllocError>
    requires { CanPairItems sets one other cell }
    ensures { let pairs = items_in sets.entry one other cell in
        OnOk result (partners.new.items ≡ partners.old.items ++ pairs) }
{
    match (one, other) {
        (Item::Num(one), Item::Num(other)) => {
            partners.push(same_kind(one, other).then_some(cell))?;
            Ok(())
        }
        (Item::Struct(in_old), Item::Struct(in_new)) => {
            let older = at_own_version(sets.old, Part::Struct(in_old));
            let newer = at_own_version(sets.new, Part::Struct(in_new));
            pair_descs(older, newer, cell, partners)
        }
        _ => put_unpaired(sets.old.item_cells(one), partners),
    }
}

// Appends `cells` cells without a partner.
fn put_unpaired(cells: u32, partners: &mut Vec<Option<u32>>) -> Result<(), AllocError>
    ensures { OnOk result (partners.new.items ≡ partners.old.items ++ replicate cells None) }
{
    for _cell in 0..cells {
        partners.push(None)?;
    }
    Ok(())
}
