// The rules about tests.
ghost use Rattle.std.specs.List.{slice_get};
ghost use Rattle.std.specs.Prelude.{◌≡◌, Option, map};
ghost use Rattle.std.specs.Option.{option_map};
ghost use Rattle.vms_spec.specs.Rules.{is_small_test, is_small_optional, nodes, depth, names_well};
ghost use Rattle.vms_parts.specs.Sizes.{in_u32};
ghost use Rattle.vms_parts.specs.Views.{formula, formula_in, field_of};
ghost use Rattle.vms_rules.specs.Naming.{is_single, may_name, may_name_in};

use vms_kinds::Item;
use vms_parts::{Count, Field, Test, Whose};

// The fields that a test or a count may name, in a description of this minimum version.
#[derive(Clone, Copy)]
pub(crate) struct Scope<'a> {
    pub(crate) fields: &'a [Field],
    pub(crate) minimum: u32,
}

// Returns whether field `number` is a single number that is present at every version from the
// minimum on.
pub(crate) fn may_name(scope: Scope, number: u32) -> bool
    ensures { result ≡ may_name scope.entry number }
{
    match field_at(scope.fields, number) {
        Some(field) => is_single(field) && field.since <= scope.minimum,
        None => false,
    }
}

// Returns field `number`.
pub(crate) fn field_at(fields: &[Field], number: u32) -> Option<&Field>
    ensures { option_map (λ f. field_of f.now) result ≡ slice_get (map field_of fields.now) number }
{
    fields.get(number as usize)
}

fn is_single(field: &Field) -> bool
    ensures { result ≡ is_single (field_of field.now) }
{
    matches!(field.item, Item::Num(_)) && matches!(field.count, Count::One) && field.test.is_none()
}

fn may_name_in(scope: Option<Scope>, number: u32) -> bool
    ensures { result ≡ may_name_in scope.entry number }
{
    match scope {
        Some(scope) => may_name(scope, number),
        None => false,
    }
}

// Returns whether each field that a test names is among those that it may name.
pub(crate) fn names_well(test: &Test, own: Scope, parent: Option<Scope>) -> bool
    ensures { result ≡ names_well (may_name own.entry) (may_name_in parent.entry)
        (formula test.now) }
{
    match test {
        Test::AtLeast(_) | Test::Below(_) => true,
        Test::Cell {
            whose: Whose::Own,
            field,
            ..
        } => may_name(own, *field),
        Test::Cell {
            whose: Whose::Parent,
            field,
            ..
        } => may_name_in(parent, *field),
        Test::Not(inner) => names_well(inner, own, parent),
        Test::And(first, second) | Test::Or(first, second) => {
            names_well(first, own, parent) && names_well(second, own, parent)
        }
    }
}

// Returns the number of nodes of a test, at most 2^32 - 1.
fn nodes(test: &Test) -> u32
    ensures { result ≡ in_u32 (nodes (formula test.now)) }
{
    match test {
        Test::AtLeast(_) | Test::Below(_) | Test::Cell { .. } => 1,
        Test::Not(inner) => nodes(inner).saturating_add(1),
        Test::And(first, second) | Test::Or(first, second) => nodes(first)
            .saturating_add(nodes(second))
            .saturating_add(1),
    }
}

// Returns the number of levels of a test, at most 2^32 - 1.
fn depth(test: &Test) -> u32
    ensures { result ≡ in_u32 (depth (formula test.now)) }
{
    match test {
        Test::AtLeast(_) | Test::Below(_) | Test::Cell { .. } => 1,
        Test::Not(inner) => depth(inner).saturating_add(1),
        Test::And(first, second) | Test::Or(first, second) => {
            depth(first).max(depth(second)).saturating_add(1)
        }
    }
}

// Returns whether a test has at most 64 nodes and 16 levels.
pub(crate) fn is_small(test: &Test) -> bool
    ensures { result ≡ is_small_test (formula test.now) }
{
    nodes(test) <= 64 && depth(test) <= 16
}

pub(crate) fn is_small_if_any(test: &Option<Box<Test>>) -> bool
    ensures { result ≡ is_small_optional (option_map formula_in test.now) }
{
    match test {
        Some(test) => is_small(test),
        None => true,
    }
}
