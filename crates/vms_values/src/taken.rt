// Reads the lines of a description: arrays up to their counts, and structures.
ghost use Rattle.std.specs.Prelude.{◌≡◌, [], true};
ghost use Rattle.vms_spec.specs.Numbers.{same_number};
ghost use Rattle.vms_spec.specs.Spelling.{number_spelled};
ghost use Rattle.vms_walk.specs.Steps.{capacities_of};
ghost use Rattle.vms_values.specs.Calls.{CanPut, CanReadElements, CanReadField, CanReadItem, CanReadPart, CanReadUnder, HasFieldAt, HasNumber};
ghost use Rattle.vms_values.specs.Calls.{PutsAt, ReadsNumbers, ReadsUnder, elements_read, field_read, is_present, item_read, number_read, part_read};
ghost use Rattle.vms_values.specs.Spelled.{held};
ghost use Rattle.vms_values.specs.Taken.{number_judged};

use crate::cursor::Lines;
use crate::fault::LineFault;
use crate::line::Line;
use crate::numbers::read_number;
use crate::read::{bad, number_text, pass};
use vms_desc::{Count, DescSet, Field, Part};
use vms_image::Image;
use vms_kinds::{Item, Kind};
use vms_spec::ValuesReason;
use vms_walk::{PartAt, is_above};
use vms_words::next_line;

/// What has been read of a device so far, and the rest of the text.
#[derive(Drop)]
pub(crate) struct Taken<'a> {
    pub(crate) image: Image,
    pub(crate) lines: Lines<'a>,
}

/// Consecutive elements of a field: `count` of them, the first of which starts at cell `first`. A
/// number may be at most `most`, and it must be its default if the elements aren't `present`.
#[derive(Clone, Copy)]
struct Run<'a> {
    field: &'a Field,
    first: u32,
    count: u32,
    most: Option<u32>,
    present: bool,
}

/// Reads the lines of the part at `spot`. `path` is for the paths of the lines.
///
/// # Errors
///
/// - [`LineFault::Bad`]: the first line that is refused, and why.
pub(crate) fn read_part(
    set: &DescSet,
    spot: PartAt,
    path: &mut Line,
    taken: &mut Taken,
) -> Result<(), LineFault>
    requires { CanReadPart set.now spot taken.old.image }
    ensures { ReadsNumbers (part_read set.now spot [] true) taken.old taken.new result }
{
    path.cut(0);
    read_under(set, spot, path, true, taken)
}

// Reads the lines of a part, or of one element of a structure, under `path`. `present` is whether
// it is in the bytes.
#[cycle(read)]
fn read_under(
    set: &DescSet,
    spot: PartAt,
    path: &mut Line,
    present: bool,
    taken: &mut Taken,
) -> Result<(), LineFault>
    requires { CanReadUnder set.now spot taken.old.image path.old }
    ensures { let whole = part_read set.now spot path.old present in
        ReadsUnder whole path.old path.new taken.old taken.new result }
{
    let kept = path.len();
    for field in 0..set.field_count(spot.part) {
        let run = Run {
            field: &set.desc(spot.part).fields.as_slice()[field as usize],
            first: set.field_start(spot.part, spot.base, field),
            count: set.elements(spot.part, spot.base, field, &taken.image),
            most: set.most(spot.part, field),
            present: is_present(set, spot, field, present, &taken.image),
        };
        path.cut(kept);
        read_field(set, run, path, taken)?;
    }
    Ok(())
}

// Returns whether a field is in the bytes; `present` is whether its part is.
fn is_present(set: &DescSet, spot: PartAt, field: u32, present: bool, image: &Image) -> bool
    requires { HasFieldAt set.now spot field image.now }
    ensures { result ≡ is_present set.now spot field present image.now }
{
    present && set.is_there(spot.part, spot.base, field, spot.version, image)
}

// Reads the lines of a field's elements.
#[cycle(read)]
fn read_field(set: &DescSet, run: Run, path: &mut Line, taken: &mut Taken) -> Result<(), LineFault>
    requires { CanReadField set.now run taken.old.image path.old }
    ensures { let whole = field_read set.now run.entry path.old in
        ReadsUnder whole path.old path.new taken.old taken.new result }
{
    path.push(run.field.name.as_bytes());
    match run.field.count {
        Count::One => read_item(set, run, path, taken),
        _ => read_elements(set, run, path, taken),
    }
}

// Reads the lines of the elements of an array.
#[cycle(read)]
fn read_elements(
    set: &DescSet,
    run: Run,
    path: &mut Line,
    taken: &mut Taken,
) -> Result<(), LineFault>
    requires { CanReadElements set.now run taken.old.image path.old }
    ensures { let whole = elements_read set.now run.entry path.old in
        ReadsUnder whole path.old path.new taken.old taken.new result }
{
    let size = set.item_cells(run.field.item);
    let kept = path.len();
    let mut first = run.first;
    for index in 0..run.count {
        path.cut(kept);
        path.push_index(index);
        read_item(set, Run { first, ..run }, path, taken)?;
        first += size;
    }
    Ok(())
}

// Reads the lines of one element, the first of the run.
#[cycle(read)]
#[inline(always)]
fn read_item(set: &DescSet, run: Run, path: &mut Line, taken: &mut Taken) -> Result<(), LineFault>
    requires { CanReadItem set.now run taken.old.image path.old }
    ensures { let whole = item_read set.now run.entry path.old in
        ReadsUnder whole path.old path.new taken.old taken.new result }
{
    match run.field.item {
        Item::Num(kind) => read_number_line(kind, run, &*path, taken),
        Item::Equal { .. } => Ok(()),
        Item::Unused { .. } => Ok(()),
        Item::Struct(number) => {
            let part = Part::Struct(number);
            let spot = PartAt {
                part,
                version: set.desc(part).version,
                base: run.first,
            };
            path.push(b".");
            read_under(set, spot, path, run.present, taken)
        }
    }
}

// Reads the line of a cell, the first of the run.
#[inline(always)]
fn read_number_line(kind: Kind, run: Run, path: &Line, taken: &mut Taken) -> Result<(), LineFault>
    requires { HasNumber kind run taken.old.image }
    ensures { ReadsNumbers (number_read kind run.entry path.now) taken.old taken.new result }
{
    let Some(line) = next_line(taken.lines.rest) else {
        return Err(bad(&taken.lines, ValuesReason::Form));
    };
    let Some(text) = number_text(path, line.text) else {
        return Err(bad(&taken.lines, ValuesReason::Form));
    };
    match judge_number(kind, run, text) {
        Ok(number) => {
            put(taken, run.first, number);
            pass(&mut taken.lines, line);
            Ok(())
        }
        Err(reason) => Err(bad(&taken.lines, reason)),
    }
}

// Puts a number into a cell.
fn put(taken: &mut Taken, cell: u32, number: i128)
    requires { CanPut taken.old.image cell number }
    ensures { PutsAt cell number taken.old taken.new }
{
    taken.image.set(cell, number);
}

// Returns the number that `text` spells, or why the first cell of the run may not hold it.
#[inline(always)]
fn judge_number(kind: Kind, run: Run, text: &[u8]) -> Result<i128, ValuesReason>
    ensures { let caps = capacities_of run.entry.most in
        let number = held kind (number_spelled text.now) in
        result ≡ number_judged caps run.entry.field.now.default run.entry.present number }
{
    let Some(number) = read_number(kind, text) else {
        return Err(ValuesReason::Number);
    };
    if is_above(number, run.most) {
        return Err(ValuesReason::Count);
    }
    if run.present || is_same(number, run.field.default) {
        Ok(number)
    } else {
        Err(ValuesReason::Absent)
    }
}

fn is_same(number: i128, other: i128) -> bool
    ensures { result ≡ same_number number other }
{
    number == other
}
