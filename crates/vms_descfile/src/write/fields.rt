// The files of fields.
ghost use Rattle.std.specs.Prelude.{◌≡◌, [], map, get_or, codes, option_map, ◌≤◌, IfOk, OnOk, IfSome};
ghost use Rattle.serde_json.specs.View.{view, members_view};
ghost use Rattle.serde_json.specs.Data.{no_members, string};
ghost use Rattle.vms_parts.specs.Views.{field_of as field_seen, formula_in};
ghost use Rattle.vms_descfile.specs.Fitting.{FitsCount, FitsField, FitsOptional};
ghost use Rattle.vms_descfile.specs.Written.{own_names, item_word, capacity_in, length_in, counter_in, equal_in, size_in, struct_in, is_zero, front_file, field_file, integer_file, given_as, test_file};

use super::tests::{TestFile, name_value};
use super::values::{
    Members, TextFile, Writes, integer_value, natural_value, put, put_list, put_natural, put_text,
    put_unless,
};
use serde_json::{Map, Value};
use std::alloc::{AllocError, Global};
use vms_kinds::Item;
use vms_parts::{Count, Field, Test};
use vms_words::kind_word;

// A writer of a field of a description with these fields.
#[derive(Clone, Copy)]
pub(crate) struct FieldFile<'a>(pub(crate) &'a [Field]);

impl<'a> Writes<Field> for FieldFile<'a> {
    ghost file = { λ s f. field_file (own_names (map field_seen s.0.now)) (field_seen f) };

    ghost fits = { λ _ f. FitsField (field_seen f) };

    fn write(&self, alloc: Global, item: &Field) -> Result<Value, AllocError> {
        field_value(alloc, self.0, item)
    }
}

fn item_word(item: Item) -> &'static str
    ensures { result.now ≡ item_word item }
{
    match item {
        Item::Num(kind) | Item::Equal { kind, .. } => kind_word(kind),
        Item::Unused { .. } => "unused",
        Item::Struct(_) => "struct",
    }
}

fn capacity_in(count: Count) -> Option<u64>
    ensures number { result ≡ capacity_in count }
    ensures fits { IfSome result (λ n. n ≤ 4294967295) }
{
    match count {
        Count::Counted { capacity, .. } => Some(capacity as u64),
        _ => None,
    }
}

fn length_in(count: Count) -> Option<u64>
    ensures number { result ≡ length_in count }
    ensures fits { IfSome result (λ n. n ≤ 4294967295) }
{
    match count {
        Count::Fixed(length) => Some(length as u64),
        _ => None,
    }
}

fn size_in(item: Item) -> Option<u64>
    ensures number { result ≡ size_in item }
    ensures fits { IfSome result (λ n. n ≤ 65535) }
{
    match item {
        Item::Unused { bytes } => Some(bytes as u64),
        _ => None,
    }
}

fn struct_in(item: Item) -> Option<u64>
    ensures number { result ≡ struct_in item }
    ensures fits { IfSome result (λ n. n ≤ 4294967295) }
{
    match item {
        Item::Struct(number) => Some(number as u64),
        _ => None,
    }
}

fn is_zero(number: i128) -> bool
    ensures { result ≡ is_zero number }
{
    number == 0
}

fn put_counted(
    alloc: Global,
    members: &mut Members,
    own: &[Field],
    count: Count,
) -> Result<(), AllocError>
    ensures { OnOk result (members_view members.new.entries
        ≡ given_as (codes "counted")
        (λ k. string (get_or (own_names (map field_seen own.now)) k [])) (counter_in count)
        (members_view members.old.entries)) }
{
    match count {
        Count::Counted { by, .. } => put(alloc, members, "counted", name_value(alloc, own, by)?),
        _ => Ok(()),
    }
}

fn put_equal(alloc: Global, members: &mut Members, item: Item) -> Result<(), AllocError>
    ensures { OnOk result (members_view members.new.entries
        ≡ given_as (codes "equal") integer_file (equal_in item)
        (members_view members.old.entries)) }
{
    match item {
        Item::Equal { value, .. } => put(alloc, members, "equal", integer_value(value)),
        _ => Ok(()),
    }
}

fn put_test(
    alloc: Global,
    members: &mut Members,
    own: &[Field],
    test: &Option<Box<Test>>,
) -> Result<(), AllocError>
    ensures file { OnOk result (members_view members.new.entries
        ≡ given_as (codes "test") (test_file (own_names (map field_seen own.now)) [])
        (option_map formula_in test.now) (members_view members.old.entries)) }
    ensures fits { OnOk result (FitsOptional (option_map formula_in test.now)) }
{
    match test {
        Some(test) => {
            let writer = TestFile { own, parent: &[] };
            put(alloc, members, "test", writer.write(alloc, test)?)
        }
        None => Ok(()),
    }
}

// Puts the members before the kind.
fn put_front(
    alloc: Global,
    members: &mut Members,
    own: &[Field],
    field: &Field,
) -> Result<(), AllocError>
    requires { members_view members.old.entries ≡ no_members }
    ensures file { OnOk result (members_view members.new.entries
        ≡ front_file (own_names (map field_seen own.now)) (field_seen field.now)) }
    ensures fits { OnOk result (FitsCount field.now.count) }
{
    put_natural(alloc, members, "capacity", capacity_in(field.count))?;
    put_natural(alloc, members, "count", length_in(field.count))?;
    put_counted(alloc, members, own, field.count)?;
    let default = integer_value(field.default);
    put_unless(alloc, members, is_zero(field.default), "default", default)?;
    put_equal(alloc, members, field.item)?;
    put_list(alloc, members, "former", &TextFile, field.former.as_slice())
}

fn field_value(alloc: Global, own: &[Field], field: &Field) -> Result<Value, AllocError>
    ensures file { IfOk result (λ v. view v
        ≡ field_file (own_names (map field_seen own.now)) (field_seen field.now)) }
    ensures fits { OnOk result (FitsField (field_seen field.now)) }
{
    let mut members = Map::new(alloc);
    put_front(alloc, &mut members, own, field)?;
    put_text(alloc, &mut members, "kind", item_word(field.item))?;
    put_text(alloc, &mut members, "name", field.name.as_str())?;
    let since = natural_value(field.since as u64);
    put_unless(alloc, &mut members, field.since == 0, "since", since)?;
    put_natural(alloc, &mut members, "size", size_in(field.item))?;
    put_natural(alloc, &mut members, "struct", struct_in(field.item))?;
    put_test(alloc, &mut members, own, &field.test)?;
    Ok(Value::Object(members))
}
