// The rules at the fields of a description.
ghost use Rattle.std.specs.List.{list_all, slice_get};
ghost use Rattle.std.specs.Prelude.{◌≡◌, ◌<◌, ◌≤◌, ◌&&◌, ◌||◌, ◌∷◌, ℕ, List, IfOk, OnOk, false, length, map, take, nat_le};
ghost use Rattle.std.specs.Option.{option_map};
ghost use Rattle.vms_spec.specs.Names.{all_names, are_new};
ghost use Rattle.vms_spec.specs.Layout.{counted};
ghost use Rattle.vms_spec.specs.Rules.{counts_well, test_names_well, count_names_well, is_counting, uses_below, defaults_well, is_small_item, has_good_count, is_small_optional, is_earlier_in, in_range, field_rules};
ghost use Rattle.vms_spec.specs.Names.{is_name};
ghost use Rattle.vms_spec.specs.WellFormed.{fields_fault};
ghost use Rattle.vms_spec.specs.Streams.{is_one_of};
ghost use Rattle.vms_parts.specs.Capacities.{AreLeast};
ghost use Rattle.vms_parts.specs.Views.{formula_in, field_of, desc_of};
ghost use Rattle.vms_rules.specs.Capacities.{fits};
ghost use Rattle.vms_rules.specs.Judged.{Judges};
ghost use Rattle.vms_rules.specs.NameSets.{has_name, are_new_to};
ghost use Rattle.vms_rules.specs.Naming.{may_name};

use crate::DescFault;
use crate::capacities::fits;
use crate::fault::lowest;
use crate::formulas::{Scope, field_at, is_small_if_any, may_name, names_well};
use crate::keys::differ_by_keys;
use crate::names::{Keyed, add_name, add_names, are_names};
use std::alloc::{AllocError, Global};
use std::collections::BTreeSet;
use vms_kinds::{Item, Kind};
use vms_parts::{Count, Desc, Field, Part, Place, Test, least_capacities};
use vms_spec::MOST_UNUSED;
use vms_words::is_name;

// Returns the fields before field `number`, which its test and its count may name.
#[tactic(auto, using(crate::proofs::NameLaws::earlier_is))]
fn earlier(desc: &Desc, number: usize) -> Scope<'_>
    requires { number ≤ length desc.now.fields }
    ensures { (i : ℕ) → may_name result i ≡ is_earlier_in (desc_of desc.now) number i }
{
    Scope {
        fields: &desc.fields.as_slice()[..number],
        minimum: desc.minimum,
    }
}

// Returns whether the names of a field have the form of names.
fn has_good_names(field: &Field) -> bool
    ensures { result ≡ (is_name 32 field.now.name && list_all (is_name 32) field.now.former) }
{
    is_name(32, field.name.as_bytes()) && are_names(32, field.former.as_slice())
}

#[tactic(auto, using(crate::proofs::NameLaws::named_in))]
fn test_names_well(desc: &Desc, number: usize, test: &Option<Box<Test>>) -> bool
    requires { number ≤ length desc.now.fields }
    ensures { result ≡ test_names_well (desc_of desc.now) number (option_map formula_in test.now) }
{
    match test {
        Some(test) => names_well(test, earlier(desc, number), None),
        None => true,
    }
}

fn count_names_well(desc: &Desc, number: usize, count: Count) -> bool
    requires { number ≤ length desc.now.fields }
    ensures { result ≡ count_names_well (desc_of desc.now) number count }
{
    match count {
        Count::Counted { by, .. } => {
            may_name(earlier(desc, number), by) && is_counting(desc.fields.as_slice(), by)
        }
        _ => true,
    }
}

// Returns whether field `number` has a kind that may count: U8, U16 or U32.
fn is_counting(fields: &[Field], number: u32) -> bool
    ensures { result ≡ is_counting (slice_get (map field_of fields.now) number) }
{
    match field_at(fields, number) {
        Some(field) => matches!(field.item, Item::Num(Kind::U8 | Kind::U16 | Kind::U32)),
        None => false,
    }
}

// Returns whether a structure that the item uses has a number below `usable`.
fn uses_below(usable: u32, item: Item) -> bool
    ensures { result ≡ uses_below usable item }
{
    match item {
        Item::Struct(number) => number < usable,
        _ => true,
    }
}

// Returns whether a number's default and a constant are in range, and every other item has the
// default 0.
fn has_good_default(field: &Field) -> bool
    ensures { result ≡ defaults_well field.now.item field.now.default }
{
    match field.item {
        Item::Num(kind) => in_range(kind, &field.default),
        Item::Equal { kind, value } => in_range(kind, &value) && field.default == 0,
        Item::Unused { .. } | Item::Struct(_) => field.default == 0,
    }
}

fn in_range(kind: Kind, number: &i128) -> bool
    ensures { result ≡ in_range kind number.now }
{
    kind.in_range(*number)
}

fn is_small_item(item: Item) -> bool
    ensures { result ≡ is_small_item item }
{
    match item {
        Item::Unused { bytes } => 1 <= bytes && bytes <= MOST_UNUSED,
        _ => true,
    }
}

// Returns whether a field is within its limits.
fn is_small(field: &Field) -> bool
    ensures { result ≡ (nat_le (length field.now.former) 8
        && is_small_optional (option_map formula_in field.now.test)
        && is_small_item field.now.item) }
{
    field.former.as_slice().len() <= 8 && is_small_if_any(&field.test) && is_small_item(field.item)
}

fn has_good_count(item: Item, count: Count) -> bool
    ensures { result ≡ has_good_count item count }
{
    match (item, count) {
        (Item::Equal { .. } | Item::Unused { .. }, Count::One) => true,
        (Item::Equal { .. } | Item::Unused { .. }, _) => false,
        (_, Count::One) => true,
        (_, Count::Fixed(length)) => 1 <= length,
        (_, Count::Counted { capacity, .. }) => 1 <= capacity,
    }
}

// A description whose fields are checked. It may use the structures of numbers below `usable`.
#[derive(Clone, Copy)]
struct Judged<'a> {
    desc: &'a Desc,
    usable: u32,
    // The least capacity of the arrays that each field counts.
    capacities: &'a [Option<u32>],
}

// Returns the rules at field `number`, given whether its names are new.
fn field_rules(judged: Judged, number: usize, field: &Field, is_new: bool) -> [bool; 8]
    requires there { number < length judged.desc.now.fields }
    requires long { length judged.capacities.now ≡ length judged.desc.now.fields }
    requires least { AreLeast (map field_of judged.desc.now.fields) judged.capacities.now }
    requires names { is_new ≡ are_new
        (all_names (take number (map field_of judged.desc.now.fields)))
        (field.now.name ∷ field.now.former) }
    ensures { result ≡ field_rules judged.entry.usable (desc_of judged.entry.desc.now) number
        (field_of field.now) }
{
    let desc = judged.desc;
    [
        has_good_names(field),
        is_new,
        true,
        test_names_well(desc, number, &field.test) && count_names_well(desc, number, field.count),
        uses_below(judged.usable, field.item),
        has_good_default(field) && counts_well(judged, number, field),
        is_small(field),
        has_good_count(field.item, field.count),
    ]
}

// Returns whether the default of field `number` is at most each capacity that it counts.
fn counts_well(judged: Judged, number: usize, field: &Field) -> bool
    requires there { number < length judged.desc.now.fields }
    requires long { length judged.capacities.now ≡ length judged.desc.now.fields }
    requires least { AreLeast (map field_of judged.desc.now.fields) judged.capacities.now }
    ensures { result ≡ counts_well (counted number (map field_of judged.entry.desc.now.fields))
        field.now.default }
{
    default_fits(judged.capacities[number], field)
}

fn default_fits(least: Option<u32>, field: &Field) -> bool
    ensures { result ≡ fits least field.now.default }
{
    fits(least, field.default)
}

// Adds the names of a field, and returns whether all are new.
fn add_field_names<'a>(
    names: &mut BTreeSet<Keyed<'a>>,
    field: &'a Field,
) -> Result<bool, AllocError>
    ensures new { IfOk result (λ are_new.
        are_new ≡ are_new_to (has_name names.old) (field.now.name ∷ field.now.former)) }
    ensures added { OnOk result ((n : List ℕ)
        → has_name names.new n ≡ (is_one_of (field.now.name ∷ field.now.former) n
        || has_name names.old n)) }
{
    let is_new = add_name(names, field.name.as_str())?;
    let are_new = add_names(names, field.former.as_slice())?;
    Ok(is_new && are_new)
}

// Returns whether the names of a field are new. They are if all names differ by their keys;
// otherwise they are looked up and added.
fn are_new_names<'a>(
    differ: bool,
    names: &mut BTreeSet<Keyed<'a>>,
    field: &'a Field,
) -> Result<bool, AllocError>
    ensures new { IfOk result (λ are_new. are_new
        ≡ (differ || are_new_to (has_name names.old) (field.now.name ∷ field.now.former))) }
    ensures added { OnOk result (differ ≡ false → (n : List ℕ)
        → has_name names.new n ≡ (is_one_of (field.now.name ∷ field.now.former) n
        || has_name names.old n)) }
{
    if differ {
        return Ok(true);
    }
    add_field_names(names, field)
}

// Checks the fields of a description.
pub(crate) fn check_fields(
    alloc: Global,
    desc: &Desc,
    usable: u32,
    part: Part,
) -> Result<(), DescFault>
    requires { length desc.now.fields ≤ 256 }
    ensures { Judges (fields_fault usable (desc_of desc.now) part) result }
{
    let fields = desc.fields.as_slice();
    let capacities = least_capacities(alloc, fields)?;
    let judged = Judged {
        desc,
        usable,
        capacities: capacities.as_slice(),
    };
    let differ = differ_by_keys(alloc, fields)?;
    let mut names = BTreeSet::new(alloc);
    for (number, field) in fields.iter().enumerate() {
        let are_new = are_new_names(differ, &mut names, field)?;
        let rules = field_rules(judged, number, field, are_new);
        let place = Place {
            part,
            field: Some(number as u32),
        };
        lowest(rules, place)?;
    }
    Ok(())
}
