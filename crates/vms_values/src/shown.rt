// Prints the lines of a description: arrays up to their counts, and structures.
ghost use Rattle.vms_values.specs.declared.line.TheConstants.{LONGEST, NUMBER_ROOM};
ghost use Rattle.std.specs.Prelude.{◌≡◌, ◌+◌, ◌≤◌, ◌++◌, [], codes, length};
ghost use Rattle.std.specs.Fmt.{signed_decimal};
ghost use Rattle.vms_io.specs.Told.{outlet};
ghost use Rattle.vms_io.specs.Writing.{Wrote};
ghost use Rattle.vms_kinds.specs.declared.Item.TheVariants as items;
ghost use Rattle.vms_spec.specs.Values.{line_end};
ghost use Rattle.vms_values.specs.Calls.{CanPrintElements, CanPrintField, CanPrintItem, CanPrintPart, CanPrintStruct, HasPartAt, Prints};
ghost use Rattle.vms_values.specs.Calls.{elements_lines, field_lines, item_lines, part_lines};

use crate::line::Line;
use itoa::Buffer;
use vms_desc::{Count, DescSet, Field, Part};
use vms_image::Image;
use vms_io::{Failed, Sink, write_all_of};
use vms_kinds::Item;
use vms_walk::PartAt;

/// An image of a device of a set.
#[derive(Clone, Copy)]
pub(crate) struct Shown<'a> {
    pub(crate) set: &'a DescSet,
    pub(crate) image: &'a Image,
}

/// Consecutive elements of a field: `count` of them, the first of which starts at cell `first`.
#[derive(Clone, Copy)]
struct Run {
    first: u32,
    count: u32,
}

/// Prints the lines of a part. What `line` holds doesn't matter.
pub(crate) fn print_lines<K: Sink>(
    shown: Shown,
    spot: PartAt,
    line: &mut Line,
    sink: &mut K,
) -> Result<(), Failed>
    requires spot { HasPartAt shown spot }
    ensures { let text = part_lines shown.entry spot [] in
        Wrote (outlet K.Sink sink.old) (outlet K.Sink sink.new) text result }
{
    line.cut(0);
    print_part(shown, spot, line, sink)
}

// Prints the lines of a part, or of one element of a structure, whose path is in `line`.
#[cycle(print)]
#[inline(always)]
fn print_part<K: Sink>(
    shown: Shown,
    spot: PartAt,
    line: &mut Line,
    sink: &mut K,
) -> Result<(), Failed>
    requires { CanPrintPart shown spot line.old }
    ensures { let text = part_lines shown.entry spot line.old in
        Prints text line.old line.new (outlet K.Sink sink.old) (outlet K.Sink sink.new) result }
{
    let set = shown.set;
    let kept = line.len();
    for field in 0..set.field_count(spot.part) {
        let run = Run {
            first: set.field_start(spot.part, spot.base, field),
            count: set.elements(spot.part, spot.base, field, shown.image),
        };
        let described = &set.desc(spot.part).fields.as_slice()[field as usize];
        line.cut(kept);
        print_field(shown, described, run, line, sink)?;
    }
    Ok(())
}

// Prints the lines of a field's elements.
#[cycle(print)]
#[inline(always)]
fn print_field<K: Sink>(
    shown: Shown,
    field: &Field,
    run: Run,
    line: &mut Line,
    sink: &mut K,
) -> Result<(), Failed>
    requires { CanPrintField shown field.now run line.old }
    ensures { let text = field_lines shown.entry field.now run line.old in
        Prints text line.old line.new (outlet K.Sink sink.old) (outlet K.Sink sink.new) result }
{
    line.push(field.name.as_bytes());
    match field.count {
        Count::One => print_item(shown, &field.item, run.first, line, sink),
        _ => print_elements(shown, &field.item, run, line, sink),
    }
}

// Prints the lines of the elements of an array.
#[cycle(print)]
#[inline(always)]
fn print_elements<K: Sink>(
    shown: Shown,
    item: &Item,
    run: Run,
    line: &mut Line,
    sink: &mut K,
) -> Result<(), Failed>
    requires { CanPrintElements shown item.now run line.old }
    ensures { let text = elements_lines shown.entry item.now run line.old in
        Prints text line.old line.new (outlet K.Sink sink.old) (outlet K.Sink sink.new) result }
{
    let size = shown.set.item_cells(*item);
    let kept = line.len();
    let mut cell = run.first;
    for index in 0..run.count {
        line.cut(kept);
        line.push_index(index);
        print_item(shown, item, cell, line, sink)?;
        cell += size;
    }
    Ok(())
}

// Prints the lines of one element, which starts at cell `cell`.
#[cycle(print)]
#[inline(always)]
fn print_item<K: Sink>(
    shown: Shown,
    item: &Item,
    cell: u32,
    line: &mut Line,
    sink: &mut K,
) -> Result<(), Failed>
    requires { CanPrintItem shown item.now cell line.old }
    ensures { let text = item_lines shown.entry item.now cell line.old in
        Prints text line.old line.new (outlet K.Sink sink.old) (outlet K.Sink sink.new) result }
{
    match item {
        Item::Num(_) => print_number(shown.image.get(cell), line, sink),
        Item::Equal { .. } => Ok(()),
        Item::Unused { .. } => Ok(()),
        Item::Struct(number) => print_struct(shown, *number, cell, line, sink),
    }
}

// Prints the lines of an element of structure `number`, whose path is in `line`. Only this function
// of the recursion isn't inlined: its callers know what kind of part they print.
#[cycle(print)]
fn print_struct<K: Sink>(
    shown: Shown,
    number: u32,
    cell: u32,
    line: &mut Line,
    sink: &mut K,
) -> Result<(), Failed>
    requires { CanPrintStruct shown number cell line.old }
    ensures { let text = item_lines shown.entry (items.Struct number) cell line.old in
        Prints text line.old line.new (outlet K.Sink sink.old) (outlet K.Sink sink.new) result }
{
    let part = Part::Struct(number);
    let spot = PartAt {
        part,
        version: shown.set.desc(part).version,
        base: cell,
    };
    line.push(b".");
    print_part(shown, spot, line, sink)
}

// Prints the line of a cell, whose path is in `line`.
#[inline(always)]
fn print_number<K: Sink>(number: i128, line: &mut Line, sink: &mut K) -> Result<(), Failed>
    requires short { length line.old + NUMBER_ROOM ≤ LONGEST }
    ensures { let text = line.old ++ (codes " = " ++ (signed_decimal number ++ line_end)) in
        Prints text line.old line.new (outlet K.Sink sink.old) (outlet K.Sink sink.new) result }
{
    let mut digits = Buffer::new();
    line.push(b" = ");
    line.push(spelled(number, &mut digits).as_bytes());
    line.push(b"\n");
    write_all_of(sink, line.text())
}

// Returns the digits of `number` with its sign, written to `digits`. Nearly all numbers have 64 bits,
// for which less is executed.
#[inline(always)]
fn spelled(number: i128, digits: &mut Buffer) -> &str
    ensures text { result.now ≡ signed_decimal number }
    ensures short { length result.now ≤ 40 }
{
    if number >= 0 && number <= u64::MAX as i128 {
        digits.format(number as u64)
    } else {
        digits.format(number)
    }
}
