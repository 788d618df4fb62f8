// The rules at structures.
ghost use Rattle.std.specs.Prelude.{◌≡◌, ◌<◌, ◌≤◌, IfOk, length, map, take, get_or, max, not};
ghost use Rattle.vms_spec.specs.Streams.{is_one_of};
ghost use Rattle.vms_spec.specs.WellFormed.{item_depth, deepest, struct_depths, struct_rules, struct_fault};
ghost use Rattle.vms_parts.specs.Views.{field_of, desc_of};
ghost use Rattle.vms_rules.specs.Judged.{Judges};
ghost use Rattle.vms_rules.specs.Walks.{structs_from, desc_at};

use crate::DescFault;
use crate::descs::{check_inside, has_few, here};
use crate::fault::lowest;
use crate::names::add_name;
use std::alloc::{AllocError, Global};
use std::collections::BTreeSet;
use vms_kinds::Item;
use vms_parts::{Desc, Field, Part};
use vms_words::is_name;

// Checks the structures of a set.
pub(crate) fn check_structs(alloc: Global, structs: &[Desc]) -> Result<(), DescFault>
    requires { length structs.now ≤ 64 }
    ensures { Judges (structs_from (map desc_of structs.now) 0 (map desc_of structs.now)) result }
{
    let depths = struct_depths(alloc, structs)?;
    let mut names = BTreeSet::new(alloc);
    for (number, desc) in structs.iter().enumerate() {
        let is_new = add_name(&mut names, desc.name.as_str())?;
        let rules = struct_rules(structs, number, is_new, depths[number]);
        check_struct(alloc, structs, number, rules)?;
    }
    Ok(())
}

// Checks structure `number`, whose own rules are given.
fn check_struct(
    alloc: Global,
    structs: &[Desc],
    number: usize,
    rules: [bool; 8],
) -> Result<(), DescFault>
    requires there { number < length structs.now }
    requires small { length structs.now ≤ 64 }
    requires rules { rules ≡ struct_rules (map desc_of structs.now) number
        (desc_at (map desc_of structs.now) number) }
    ensures { Judges
        (struct_fault (map desc_of structs.now) number (desc_at (map desc_of structs.now) number))
        result }
{
    let part = Part::Struct(number as u32);
    lowest(rules, here(part))?;
    check_inside(alloc, &structs[number], number as u32, part)
}

// Returns the rules at structure `number` itself, given whether its name is new.
fn struct_rules(structs: &[Desc], number: usize, is_new: bool, depth: u32) -> [bool; 8]
    requires there { number < length structs.now }
    requires new { is_new ≡ not (is_one_of
        (map (λ e. e.name) (take number (map desc_of structs.now)))
        (desc_at (map desc_of structs.now) number).name) }
    requires depth { depth ≡ get_or (struct_depths (map desc_of structs.now)) number 0 }
    ensures { result ≡ struct_rules (map desc_of structs.now) number
        (desc_at (map desc_of structs.now) number) }
{
    let desc = &structs[number];
    [
        is_name(100, desc.name.as_bytes()),
        is_new,
        desc.minimum <= desc.version,
        true,
        true,
        true,
        has_few(desc) && depth <= 4,
        1 <= desc.fields.as_slice().len(),
    ]
}

// Returns the depth of each structure, by the structures that it uses.
fn struct_depths(alloc: Global, structs: &[Desc]) -> Result<Vec<u32>, AllocError>
    requires { length structs.now ≤ 64 }
    ensures { IfOk result (λ depths. depths.items ≡ struct_depths (map desc_of structs.now)) }
{
    let mut depths = Vec::with_capacity(alloc, structs.len())?;
    for desc in structs {
        depths.push(1 + deepest(&depths, desc.fields.as_slice()))?;
    }
    Ok(depths)
}

// Returns the depth of the deepest structure that these fields use.
fn deepest(depths: &[u32], fields: &[Field]) -> u32
    ensures { result ≡ deepest depths.now (map field_of fields.now) }
{
    let mut deepest = 0;
    for field in fields {
        deepest = item_depth(depths, field.item).max(deepest);
    }
    deepest
}

fn item_depth(depths: &[u32], item: Item) -> u32
    ensures { result ≡ item_depth depths.now item }
{
    match item {
        Item::Struct(number) => depths.get(number as usize).copied().unwrap_or(0),
        _ => 0,
    }
}
