// Tests and fields at a known version.
ghost use Rattle.std.specs.Prelude.{◌≡◌, ◌≤◌, true, not};
ghost use Rattle.std.specs.Option.{option_map};
ghost use Rattle.vms_spec.specs.Rules.{nodes};
ghost use Rattle.vms_parts.specs.Views.{formula, formula_in, field_of};
ghost use Rattle.vms_check.specs.Comparing.{is_absent};
ghost use Rattle.vms_check.specs.Reducing.{reduced};
ghost use Rattle.vms_check.specs.Sides.{as_reduced, is_whole_left, left_nodes, field_reduced};

use vms_desc::{Field, Test};

// A test at a known version: a truth value, or the rest of the test.
#[derive(Clone, Copy)]
pub(crate) enum Left<'a> {
    // The test is always true, or always false.
    Known(bool),
    // The rest of the test. Its root can't be folded.
    Open(&'a Test),
}

// Returns what `test` becomes at `version`.
pub(crate) fn reduce(test: &Test, version: u32) -> Left<'_>
    ensures same { as_reduced version result ≡ reduced version (formula test.now) }
    ensures whole { is_whole_left version result ≡ true }
    ensures small { left_nodes result ≤ nodes (formula test.now) }
{
    match test {
        Test::AtLeast(least) => Left::Known(*least <= version),
        Test::Below(bound) => Left::Known(version < *bound),
        Test::Cell { .. } => Left::Open(test),
        Test::Not(inner) => match reduce(inner, version) {
            Left::Known(holds) => Left::Known(!holds),
            Left::Open(_) => Left::Open(test),
        },
        Test::And(first, second) => match (reduce(first, version), reduce(second, version)) {
            (Left::Known(true), left) | (left, Left::Known(true)) => left,
            (Left::Open(_), Left::Open(_)) => Left::Open(test),
            _ => Left::Known(false),
        },
        Test::Or(first, second) => match (reduce(first, version), reduce(second, version)) {
            (Left::Known(false), left) | (left, Left::Known(false)) => left,
            (Left::Open(_), Left::Open(_)) => Left::Open(test),
            _ => Left::Known(true),
        },
    }
}

// Returns whether a field is present, or the rest of its test.
pub(crate) fn presence(field: &Field, version: u32) -> Left<'_>
    ensures same { as_reduced version result ≡ field_reduced version
        (option_map formula_in field.now.test) field.now.since }
    ensures whole { is_whole_left version result ≡ true }
{
    match &field.test {
        Some(test) => reduce(test, version),
        None => Left::Known(field.since <= version),
    }
}

/// Checks whether `field` may be present at `version`.
///
/// A field with a test may be, unless the test is false at that version. A field without one is
/// present from its `since` on.
pub fn is_present(field: &Field, version: u32) -> bool
    ensures { result ≡ not (is_absent version (field_of field.now)) }
{
    !matches!(presence(field, version), Left::Known(false))
}
