// Whether reduced tests are the same, where fields are matched by position.
ghost use Rattle.std.specs.Prelude.{◌≡◌};
ghost use Rattle.vms_parts.specs.Views.{formula};
ghost use Rattle.vms_check.specs.Comparing.{same_test, same_reduced};
ghost use Rattle.vms_check.specs.Reducing.{reduced};
ghost use Rattle.vms_check.specs.Places.{HavePlaces};
ghost use Rattle.vms_check.specs.Sides.{AreAtoms, AreWhole, AreWholeLeft, as_reduced, position_on};

use crate::positions::{Places, same_place};
use crate::reducing::{Left, reduce};
use crate::side::Side;
use vms_desc::{Test, Whose};

#[cycle(same)]
pub(crate) fn same_reduced(old: Side, new: Side, places: &Places, one: Left, other: Left) -> bool
    requires sides { HavePlaces old new places.now }
    requires whole { AreWholeLeft old new one other }
    ensures { result ≡ same_reduced (position_on old.entry) (position_on new.entry)
        (as_reduced old.entry.version one.entry) (as_reduced new.entry.version other.entry) }
{
    match (one, other) {
        (Left::Known(one), Left::Known(other)) => one == other,
        (Left::Open(one), Left::Open(other)) => same_tests(old, new, places, one, other),
        _ => false,
    }
}

// Compares two tests whose roots can't be folded.
#[cycle(same)]
fn same_tests(old: Side, new: Side, places: &Places, one: &Test, other: &Test) -> bool
    requires sides { HavePlaces old new places.now }
    requires whole { AreWhole old new (formula one.now) (formula other.now) }
    ensures { result ≡ same_reduced (position_on old.entry) (position_on new.entry)
        (reduced old.entry.version (formula one.now))
        (reduced new.entry.version (formula other.now)) }
{
    match (one, other) {
        (Test::Cell { .. }, Test::Cell { .. }) => same_atoms(old, new, places, one, other),
        (Test::Not(one), Test::Not(other)) => same_inner(old, new, places, one, other),
        (Test::And(one, one_more), Test::And(other, other_more))
        | (Test::Or(one, one_more), Test::Or(other, other_more)) => {
            same_inner(old, new, places, one, other)
                && same_inner(old, new, places, one_more, other_more)
        }
        _ => false,
    }
}

#[cycle(same)]
fn same_inner(old: Side, new: Side, places: &Places, one: &Test, other: &Test) -> bool
    requires { HavePlaces old new places.now }
    ensures { result ≡ same_reduced (position_on old.entry) (position_on new.entry)
        (reduced old.entry.version (formula one.now))
        (reduced new.entry.version (formula other.now)) }
{
    same_reduced(
        old,
        new,
        places,
        reduce(one, old.version),
        reduce(other, new.version),
    )
}

// Compares two tests of numbers of the descriptions.
fn same_atoms(old: Side, new: Side, places: &Places, one: &Test, other: &Test) -> bool
    requires sides { HavePlaces old new places.now }
    requires atoms { AreAtoms (formula one.now) (formula other.now) }
    ensures { result ≡ same_test (position_on old.entry) (position_on new.entry) (formula one.now)
        (formula other.now) }
{
    match (one, other) {
        (
            Test::Cell {
                whose: Whose::Own,
                field: one,
                mask: one_mask,
                rel: one_rel,
                value: one_value,
            },
            Test::Cell {
                whose: Whose::Own,
                field: other,
                mask: other_mask,
                rel: other_rel,
                value: other_value,
            },
        ) => {
            same_place(old, new, places, *one, *other)
                && one_mask == other_mask
                && one_rel == other_rel
                && one_value == other_value
        }
        _ => false,
    }
}
