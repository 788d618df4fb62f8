// The walk: the fields of a description in order, arrays and structures expanded.
ghost use Rattle.std.specs.Prelude.{◌≡◌, None, IfSome};
ghost use Rattle.vms_kinds.specs.declared.Item.TheVariants as items;
ghost use Rattle.vms_parts.specs.Views.{field_of};
ghost use Rattle.vms_walk.specs.Calls.{AreFree, CanWalkField, CanWalkItem, CanWalkRow, CanWalkRun, HasField, IsSpotOf, Walks};
ghost use Rattle.vms_walk.specs.Calls.{field_in, item_in, present_in, row_in, spot_in};
ghost use Rattle.vms_walk.specs.Runs.{run_of};
ghost use Rattle.vms_walk.specs.Steps.{MayCome};

use crate::{LONGEST_RUN, WalkStep, Walker};
use vms_desc::{Cells, DescSet, Field, Part, PartFields};
use vms_kinds::{Item, Kind};

// Runs shorter than this are handled number by number.
const SHORTEST_RUN: u32 = 4;

/// A part of a set at a version, or one element of a structure, and its first cell.
#[derive(Clone, Copy, Drop)]
pub struct PartAt {
    /// The part: a device's own fields, a subsection or a structure.
    pub part: Part,
    /// The version that decides which of the part's fields are in the bytes.
    pub version: u32,
    /// The number of its first cell in the device.
    pub base: u32,
}

// Consecutive elements; the first starts at cell `first`. `most` is the capacity that a count may
// not exceed.
#[derive(Clone, Copy)]
struct Elements<'a> {
    item: &'a Item,
    most: Option<u32>,
    count: u32,
    first: u32,
}

// A part, or one element of a structure, with its fields.
#[derive(Clone, Copy)]
struct Here<'a> {
    spot: PartAt,
    fields: PartFields<'a>,
}

// Returns how many elements of a field are in the bytes: none if the field is absent.
#[inline(always)]
fn present<C: Cells>(set: &DescSet, spot: PartAt, field: &Field, cells: &C) -> u32
    requires { HasField set.now spot (field_of field.now) (C.numbers cells.now) }
    ensures { let f = field_of field.now in
        result ≡ present_in set.now spot f (C.numbers cells.now) }
{
    if set.is_present(spot.part, spot.base, field, spot.version, cells) {
        set.count_of(spot.part, spot.base, field, cells)
    } else {
        0
    }
}

// Walks one element of a field, which starts at cell `cell`. `most` is the capacity that a count
// may not exceed.
#[cycle(walk)]
#[inline(always)]
fn walk_item<W: Walker>(
    set: &DescSet,
    item: &Item,
    most: Option<u32>,
    cell: u32,
    walker: &mut W,
) -> Result<(), W::Fault>
    requires { CanWalkItem W.does W.numbers W.may set.now item.now most cell walker.old }
    ensures { let slots = item_in set.now item.now most cell in
        Walks W.does W.numbers slots result walker.old walker.new }
{
    match item {
        Item::Num(kind) => walker.step(WalkStep::Number {
            cell,
            kind: *kind,
            most,
        }),
        Item::Equal { kind, value } => walker.step(WalkStep::Constant {
            kind: *kind,
            value: *value,
        }),
        Item::Unused { bytes } => walker.step(WalkStep::Filler { bytes: *bytes }),
        Item::Struct(number) => walk_element(set, *number, cell, walker),
    }
}

// Walks one element of structure `number`. The result of the call has room in this function, which
// is inlined, so that a number needs none.
#[cycle(walk)]
#[inline(always)]
fn walk_element<W: Walker>(
    set: &DescSet,
    number: u32,
    cell: u32,
    walker: &mut W,
) -> Result<(), W::Fault>
    requires { let item = items.Struct number in
        CanWalkItem W.does W.numbers W.may set.now item None cell walker.old }
    ensures { let slots = item_in set.now (items.Struct number) None cell in
        Walks W.does W.numbers slots result walker.old walker.new }
{
    walk_struct(set, number, cell, walker)
}

// Walks one element of structure `number`. Only this function of the recursion isn't inlined: its
// callers know what kind of part they walk.
#[cycle(walk)]
fn walk_struct<W: Walker>(
    set: &DescSet,
    number: u32,
    cell: u32,
    walker: &mut W,
) -> Result<(), W::Fault>
    requires { let item = items.Struct number in
        CanWalkItem W.does W.numbers W.may set.now item None cell walker.old }
    ensures { let slots = item_in set.now (items.Struct number) None cell in
        Walks W.does W.numbers slots result walker.old walker.new }
{
    let part = Part::Struct(number);
    let spot = PartAt {
        part,
        version: set.desc(part).version,
        base: cell,
    };
    walk(set, spot, walker)
}

// Walks all elements of a row. A field that is no array has one, for which no loop is needed.
#[cycle(walk)]
#[inline(always)]
fn walk_row<W: Walker>(set: &DescSet, row: Elements<'_>, walker: &mut W) -> Result<(), W::Fault>
    requires { CanWalkRow W.does W.numbers W.may set.now row walker.old }
    ensures { let slots = row_in set.now row.entry in
        Walks W.does W.numbers slots result walker.old walker.new }
{
    if row.count != 1 {
        return walk_items(set, row, walker);
    }
    walk_item(set, row.item, row.most, row.first, walker)
}

// Walks the elements of a row one after the other, or in runs.
#[cycle(walk)]
#[inline(always)]
fn walk_items<W: Walker>(set: &DescSet, row: Elements<'_>, walker: &mut W) -> Result<(), W::Fault>
    requires { CanWalkRow W.does W.numbers W.may set.now row walker.old }
    ensures { let slots = row_in set.now row.entry in
        Walks W.does W.numbers slots result walker.old walker.new }
{
    if let Some(kind) = run_kind(row) {
        return walk_run(row.first, row.count, kind, walker);
    }
    let size = set.item_cells(*row.item);
    let mut cell = row.first;
    for _turn in 0..row.count {
        walk_item(set, row.item, row.most, cell, walker)?;
        cell += size;
    }
    Ok(())
}

// Returns the kind of elements that are taken in runs: several numbers that count nothing, of a
// kind for which any code is valid.
#[inline(always)]
fn run_kind(row: Elements<'_>) -> Option<Kind>
    ensures { IfSome result (λ kind. AreFree row.entry kind) }
{
    if row.count < SHORTEST_RUN {
        return None;
    }
    match (row.item, row.most) {
        (Item::Num(kind), None) if *kind != Kind::Bool => Some(*kind),
        _ => None,
    }
}

// Walks `count` numbers of one kind that count nothing, in consecutive cells from `first` on.
#[inline(always)]
fn walk_run<W: Walker>(first: u32, count: u32, kind: Kind, walker: &mut W) -> Result<(), W::Fault>
    requires { CanWalkRun W.does W.numbers W.may first count kind walker.old }
    ensures { W.does (run_of first count kind) walker.old result walker.new }
{
    let end = first + count;
    let mut cell = first;
    while cell < end {
        let some = (end - cell).min(LONGEST_RUN);
        walker.run(cell, some, kind)?;
        cell += some;
    }
    Ok(())
}

// Walks one field, which starts at cell `cell`.
#[cycle(walk)]
#[inline(always)]
fn walk_field<W: Walker>(
    set: &DescSet,
    here: Here<'_>,
    field: u32,
    cell: u32,
    walker: &mut W,
) -> Result<(), W::Fault>
    requires { CanWalkField W.does W.numbers W.may set.now here field cell walker.old }
    ensures { let slots = field_in set.now here.entry.spot field cell in
        Walks W.does W.numbers slots result walker.old walker.new }
{
    let described = &here.fields.as_slice()[field as usize];
    let count = present(set, here.spot, described, walker);
    let most = set.most_in(here.spot.part, here.fields, field);
    let row = Elements {
        item: &described.item,
        most,
        count,
        first: cell,
    };
    walk_row(set, row, walker)
}

/// Calls `walker` for each thing that the part at `spot` has in the bytes, in order, and then for
/// the part's end.
///
/// Arrays and structures are expanded. The end of each structure element is a step too.
///
/// # Errors
///
/// The walker's [`Walker::Fault`], if it stops at one of the steps.
///
/// # Requires
///
/// The set has the part, its cells are among the walker's numbers, and the walker may take each
/// step that comes.
#[cycle(walk)]
#[inline(always)]
pub fn walk<W: Walker>(set: &DescSet, spot: PartAt, walker: &mut W) -> Result<(), W::Fault>
    requires spot { IsSpotOf set.now spot (W.numbers walker.old) }
    requires may { MayCome W.does W.numbers W.may (spot_in set.now spot) walker.old }
    ensures { let slots = spot_in set.now spot in
        Walks W.does W.numbers slots result walker.old walker.new }
{
    let fields = set.fields_of(spot.part);
    let here = Here { spot, fields };
    for field in 0..set.field_count(spot.part) {
        let cell = set.start_in(spot.part, fields, spot.base, field);
        walk_field(set, here, field, cell, walker)?;
    }
    walker.rules(set, spot)
}
