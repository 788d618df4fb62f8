// A description on each side: its present fields in pairs, their structures, and then its validations.
ghost use Rattle.std.specs.List.{list_all, list_any};
ghost use Rattle.std.specs.Prelude.{◌≡◌, map, true};
ghost use Rattle.vms_desc.specs.Described.{described};
ghost use Rattle.vms_parts.specs.Views.{formula};
ghost use Rattle.vms_check.specs.Pairs.{AreOn, HaveStructs, all_fields_on, desc_mismatch, is_kept_test, is_left, pair_mismatch, struct_mismatch, validations_on};
ghost use Rattle.vms_check.specs.Places.{HavePlaces};
ghost use Rattle.vms_check.specs.Sides.{AreSides, as_reduced, is_whole_left};

use crate::Mismatch;
use crate::pairs::failing_rule;
use crate::positions::{Places, places_on};
use crate::present::{Present, next_present};
use crate::reducing::{Left, reduce};
use crate::same::same_reduced;
use crate::side::{Side, at_own_version, here, in_field, validations_of};
use vms_desc::{DescSet, Part, Test};
use vms_kinds::Item;

// Checks whether one of the old validations has become this.
fn is_among(old: Side, new: Side, places: &Places, tests: &[Test], left: Left) -> bool
    requires sides { HavePlaces old new places.now }
    requires whole { is_whole_left new.version left ≡ true }
    ensures { let is = is_left old.entry new.entry (as_reduced new.entry.version left.entry) in
        result ≡ list_any is (map formula tests.now) }
{
    for test in tests {
        if same_reduced(old, new, places, reduce(test, old.version), left) {
            return true;
        }
    }
    false
}

// Checks whether a validation of the new set is always true, or is an old one.
fn is_kept(old: Side, new: Side, places: &Places, test: &Test) -> bool
    requires { HavePlaces old new places.now }
    ensures { result ≡ is_kept_test old.entry new.entry (formula test.now) }
{
    match reduce(test, new.version) {
        Left::Known(true) => true,
        left => is_among(old, new, places, validations_of(old), left),
    }
}

fn are_kept(old: Side, new: Side, places: &Places, tests: &[Test]) -> bool
    requires { HavePlaces old new places.now }
    ensures { result ≡ list_all (is_kept_test old.entry new.entry) (map formula tests.now) }
{
    for test in tests {
        if !is_kept(old, new, places, test) {
            return false;
        }
    }
    true
}

fn compare_validations(old: Side, new: Side, places: &Places) -> Option<Mismatch>
    requires { HavePlaces old new places.now }
    ensures { result ≡ validations_on old.entry new.entry }
{
    if are_kept(old, new, places, validations_of(new)) {
        return None;
    }
    Some(Mismatch {
        rule: 15,
        in_old: here(old.part),
        in_new: here(new.part),
    })
}

// Compares two structures, each at its own version.
#[cycle(walk)]
fn compare_structs(old: &DescSet, new: &DescSet, in_old: u32, in_new: u32) -> Option<Mismatch>
    requires { HaveStructs old.now new.now in_old in_new }
    ensures { result ≡ struct_mismatch (described old.now) (described new.now) in_old in_new }
{
    compare_descs(
        at_own_version(old, Part::Struct(in_old)),
        at_own_version(new, Part::Struct(in_new)),
    )
}

// Compares two fields of the same position, and their structures.
#[cycle(walk)]
fn compare_pair(
    old: Side,
    new: Side,
    places: &Places,
    one: Present,
    other: Present,
) -> Option<Mismatch>
    requires sides { HavePlaces old new places.now }
    requires pair { AreOn old new one other }
    ensures { result ≡ pair_mismatch old.entry new.entry one.entry other.entry }
{
    if let Some(rule) = failing_rule(old, new, places, one, other) {
        return Some(Mismatch {
            rule,
            in_old: in_field(old.part, one.number),
            in_new: in_field(new.part, other.number),
        });
    }
    match (one.field.item, other.field.item) {
        (Item::Struct(in_old), Item::Struct(in_new)) => {
            compare_structs(old.set, new.set, in_old, in_new)
        }
        _ => None,
    }
}

#[cycle(walk)]
fn compare_fields(old: Side, new: Side, places: &Places) -> Option<Mismatch>
    requires { HavePlaces old new places.now }
    ensures { result ≡ all_fields_on old.entry new.entry }
{
    let (mut in_old, mut in_new) = (0, 0);
    loop {
        match (next_present(old, in_old), next_present(new, in_new)) {
            (None, None) => return None,
            (Some(one), None) => {
                return Some(Mismatch {
                    rule: 5,
                    in_old: in_field(old.part, one.number),
                    in_new: here(new.part),
                });
            }
            (None, Some(other)) => {
                return Some(Mismatch {
                    rule: 6,
                    in_old: here(old.part),
                    in_new: in_field(new.part, other.number),
                });
            }
            (Some(one), Some(other)) => {
                if let Some(mismatch) = compare_pair(old, new, places, one, other) {
                    return Some(mismatch);
                }
                in_old = one.number as usize + 1;
                in_new = other.number as usize + 1;
            }
        }
    }
}

// Returns the first mismatch of two descriptions.
#[cycle(walk)]
pub(crate) fn compare_descs(old: Side, new: Side) -> Option<Mismatch>
    requires { AreSides old new }
    ensures { result ≡ desc_mismatch old.entry new.entry }
{
    let places = places_on(old, new);
    if let Some(mismatch) = compare_fields(old, new, &places) {
        return Some(mismatch);
    }
    compare_validations(old, new, &places)
}
