// The files of tests.
ghost use Rattle.std.specs.Prelude.{◌≡◌, [], map, get_or, IfOk, OnOk};
ghost use Rattle.serde_json.specs.Data.{string, object, put};
ghost use Rattle.serde_json.specs.View.{view, members_view};
ghost use Rattle.vms_parts.specs.Views.{formula, field_of as field_seen};
ghost use Rattle.vms_descfile.specs.Fitting.{FitsTest};
ghost use Rattle.vms_descfile.specs.Written.{test_file, only, compared_file, rel_file, own_names, pair_file};

use super::values::{Members, Writes, natural_value, put, text_value};
use serde_json::{Map, Value};
use std::alloc::{AllocError, Global};
use vms_parts::{Field, Rel, Test, Whose};

// A writer of a test: the fields of its description, and for a needed test those of the device.
#[derive(Clone, Copy)]
pub(crate) struct TestFile<'a> {
    pub(crate) own: &'a [Field],
    pub(crate) parent: &'a [Field],
}

impl<'a> Writes<Test> for TestFile<'a> {
    ghost file = { λ s t. test_file (own_names (map field_seen s.own.now))
        (own_names (map field_seen s.parent.now)) (formula t) };

    ghost fits = { λ _ t. FitsTest (formula t) };

    fn write(&self, alloc: Global, item: &Test) -> Result<Value, AllocError> {
        test_value(alloc, self.own, self.parent, item)
    }
}

fn test_value(
    alloc: Global,
    own: &[Field],
    parent: &[Field],
    test: &Test,
) -> Result<Value, AllocError>
    ensures file { IfOk result (λ v. view v
        ≡ test_file (own_names (map field_seen own.now)) (own_names (map field_seen parent.now))
        (formula test.now)) }
    ensures fits { OnOk result (FitsTest (formula test.now)) }
{
    match test {
        Test::AtLeast(least) => only(alloc, "at_least", natural_value(*least as u64)),
        Test::Below(bound) => only(alloc, "below", natural_value(*bound as u64)),
        Test::Cell {
            whose,
            field,
            mask,
            rel,
            value,
        } => {
            let members = compared(alloc, *mask, *rel, *value)?;
            match whose {
                Whose::Own => named(alloc, members, "field", own, *field),
                Whose::Parent => named(alloc, members, "parent", parent, *field),
            }
        }
        Test::Not(inner) => only(alloc, "not", test_value(alloc, own, parent, inner)?),
        Test::And(first, second) => {
            let first = test_value(alloc, own, parent, first)?;
            let second = test_value(alloc, own, parent, second)?;
            both(alloc, "and", first, second)
        }
        Test::Or(first, second) => {
            let first = test_value(alloc, own, parent, first)?;
            let second = test_value(alloc, own, parent, second)?;
            both(alloc, "or", first, second)
        }
    }
}

// Returns the members with the name of a field.
fn named(
    alloc: Global,
    mut members: Members,
    key: &str,
    fields: &[Field],
    number: u32,
) -> Result<Value, AllocError>
    ensures { IfOk result (λ v. view v
        ≡ object (put key.now (string (get_or (own_names (map field_seen fields.now)) number []))
        (members_view members.entries))) }
{
    put(alloc, &mut members, key, name_value(alloc, fields, number)?)?;
    Ok(Value::Object(members))
}

// Returns an object with one member.
fn only(alloc: Global, key: &str, value: Value) -> Result<Value, AllocError>
    ensures { IfOk result (λ v. view v ≡ only key.now (view value)) }
{
    let mut members = Map::new(alloc);
    put(alloc, &mut members, key, value)?;
    Ok(Value::Object(members))
}

// Returns an object with one member, whose value is a list of two.
fn both(alloc: Global, key: &str, first: Value, second: Value) -> Result<Value, AllocError>
    ensures { IfOk result (λ v. view v ≡ only key.now (pair_file (view first) (view second))) }
{
    only(alloc, key, Value::Array(vec![in alloc; first, second]?))
}

// Returns the members of a test of a number, without the field's name.
fn compared(alloc: Global, mask: u64, rel: Rel, value: u64) -> Result<Members, AllocError>
    ensures { IfOk result (λ m. members_view m.entries ≡ compared_file mask rel value) }
{
    let mut members = Map::new(alloc);
    put(alloc, &mut members, "is", rel_value(alloc, rel)?)?;
    put(alloc, &mut members, "mask", natural_value(mask))?;
    put(alloc, &mut members, "value", natural_value(value))?;
    Ok(members)
}

fn rel_value(alloc: Global, rel: Rel) -> Result<Value, AllocError>
    ensures { IfOk result (λ v. view v ≡ rel_file rel) }
{
    match rel {
        Rel::Eq => text_value(alloc, "eq"),
        Rel::Ne => text_value(alloc, "ne"),
        Rel::Lt => text_value(alloc, "lt"),
        Rel::Ge => text_value(alloc, "ge"),
    }
}

// Returns the name of a field by its number.
#[tactic(auto, using(crate::proofs::ObjectLaws::name_at))]
pub(crate) fn name_value(alloc: Global, fields: &[Field], number: u32) -> Result<Value, AllocError>
    ensures { IfOk result (λ v. view v
        ≡ string (get_or (own_names (map field_seen fields.now)) number [])) }
{
    let number = number as usize;
    if number < fields.len() {
        text_value(alloc, fields[number].name.as_str())
    } else {
        text_value(alloc, "")
    }
}
