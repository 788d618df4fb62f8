// The rules for two fields of the same position.
ghost use Rattle.std.specs.Prelude.{◌≡◌};
ghost use Rattle.vms_spec.specs.Layout.{counted};
ghost use Rattle.vms_check.specs.Comparing.{same_count, same_reduced, same_rest, absent_hold, bound};
ghost use Rattle.vms_check.specs.Pairs.{AreOn, IsOn, entry, failing_number, rules_on, uncovered_on};
ghost use Rattle.vms_check.specs.Places.{HavePlaces};
ghost use Rattle.vms_check.specs.Sides.{AreSides, IsSide, desc_on, position_on};

use crate::capacities::{absent_hold, greatest};
use crate::items::{holds_as_much, is_covered, same_constant, same_item};
use crate::names::names_match;
use crate::positions::{Places, same_place};
use crate::present::Present;
use crate::reducing::presence;
use crate::same::same_reduced;
use crate::side::{Side, fields_of};
use vms_desc::Count;

// Checks whether both fields are single, of equal length, or counted by fields of the same position.
fn same_count(old: Side, new: Side, places: &Places, one: Count, other: Count) -> bool
    requires { HavePlaces old new places.now }
    ensures { result ≡ same_count (position_on old.entry) (position_on new.entry) one other }
{
    match (one, other) {
        (Count::One, Count::One) => true,
        (Count::Fixed(one), Count::Fixed(other)) => one == other,
        (Count::Counted { by: one, .. }, Count::Counted { by: other, .. }) => {
            same_place(old, new, places, one, other)
        }
        _ => false,
    }
}

// Checks whether the rest of their tests is the same.
#[tactic(auto, using(crate::proofs::PairLaws::left_same, crate::proofs::PairLaws::presence_is))]
fn same_rest(old: Side, new: Side, places: &Places, one: Present, other: Present) -> bool
    requires sides { HavePlaces old new places.now }
    requires pair { AreOn old new one other }
    ensures { result ≡ same_rest (position_on old.entry) (position_on new.entry)
        (entry old.entry.version one.entry).rest (entry new.entry.version other.entry).rest }
{
    same_reduced(
        old,
        new,
        places,
        presence(one.field, old.version),
        presence(other.field, new.version),
    )
}

// Returns the largest number that a field can have.
#[tactic(auto, using(crate::proofs::CapacityLaws::bound_laws))]
fn bound(side: Side, one: Present) -> u64
    requires side { IsSide side }
    requires one { IsOn side one }
    ensures { result ≡ bound one.entry.field.now.item
        (counted one.entry.number (desc_on side.entry).fields) }
{
    match side.set.most(side.part, one.number) {
        Some(capacity) => u64::from(capacity),
        None => greatest(one.field.item),
    }
}

// Checks whether the absent arrays that the new number counts have room for the largest old number.
//
// They are looked at one by one only if one of them has less room.
#[tactic(auto, using(crate::proofs::CapacityLaws::room_laws))]
fn absent_arrays_hold(old: Side, new: Side, one: Present, other: Present) -> bool
    requires sides { AreSides old new }
    requires pair { AreOn old new one other }
    ensures { result ≡ absent_hold new.entry.version other.entry.number
        (bound one.entry.field.now.item (counted one.entry.number (desc_on old.entry).fields))
        (desc_on new.entry).fields }
{
    let most = bound(old, one);
    match new.set.most(new.part, other.number) {
        None => true,
        Some(capacity) => {
            most <= u64::from(capacity)
                || absent_hold(fields_of(new), new.version, other.number, most)
        }
    }
}

// Returns the first rule that fails if no unused bytes cover the old field.
fn uncovered_rule(old: Side, new: Side, places: &Places, one: Present, other: Present) -> Option<u8>
    requires sides { HavePlaces old new places.now }
    requires pair { AreOn old new one other }
    ensures { result ≡ failing_number (uncovered_on old.entry new.entry one.entry other.entry) }
{
    let (before, after) = (one.field, other.field);
    if !same_count(old, new, places, before.count, after.count) {
        Some(7)
    } else if !same_item(before.item, after.item) {
        Some(8)
    } else if !same_rest(old, new, places, one, other) {
        Some(9)
    } else if !names_match(before, after) {
        Some(10)
    } else if !holds_as_much(before.count, after.count)
        || !absent_arrays_hold(old, new, one, other)
    {
        Some(11)
    } else if !same_constant(before.item, after.item) {
        Some(12)
    } else {
        None
    }
}

// Returns the first rule that fails for two fields of the same position.
pub(crate) fn failing_rule(
    old: Side,
    new: Side,
    places: &Places,
    one: Present,
    other: Present,
) -> Option<u8>
    requires sides { HavePlaces old new places.now }
    requires pair { AreOn old new one other }
    ensures { result ≡ failing_number (rules_on old.entry new.entry one.entry other.entry) }
{
    if !is_covered(one.field.item, one.field.count, other.field.item) {
        uncovered_rule(old, new, places, one, other)
    } else if same_rest(old, new, places, one, other) {
        None
    } else {
        Some(9)
    }
}
