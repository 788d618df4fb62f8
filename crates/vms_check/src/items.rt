// Items, counts and constants on both sides.
ghost use Rattle.std.specs.Prelude.{◌≡◌};
ghost use Rattle.vms_kinds.specs.Codes.{width};
ghost use Rattle.vms_spec.specs.Numbers.{same_number};
ghost use Rattle.vms_check.specs.Comparing.{same_kind, same_item, same_constant, is_covered, holds_as_much};

use vms_desc::Count;
use vms_kinds::{Item, Kind};

/// Checks whether `one` and `other` are the same kind of number.
pub fn same_kind(one: Kind, other: Kind) -> bool
    ensures { result ≡ same_kind one other }
{
    one == other
}

// Checks whether two items are of one kind. Two structures always are. Unused bytes are if their numbers are equal.
pub(crate) fn same_item(one: Item, other: Item) -> bool
    ensures { result ≡ same_item one other }
{
    match (one, other) {
        (Item::Num(one), Item::Num(other)) => same_kind(one, other),
        (Item::Equal { kind: one, .. }, Item::Equal { kind: other, .. }) => same_kind(one, other),
        (Item::Unused { bytes: one }, Item::Unused { bytes: other }) => one == other,
        (Item::Struct(_), Item::Struct(_)) => true,
        _ => false,
    }
}

fn same_number(one: i128, other: i128) -> bool
    ensures { result ≡ same_number one other }
{
    one == other
}

// Checks whether two constants are the same, if both items have one.
pub(crate) fn same_constant(one: Item, other: Item) -> bool
    ensures { result ≡ same_constant one other }
{
    match (one, other) {
        (Item::Equal { value: one, .. }, Item::Equal { value: other, .. }) => {
            same_number(one, other)
        }
        _ => true,
    }
}

// Checks whether unused bytes of the new set cover a constant of the old one, or its numbers.
pub(crate) fn is_covered(item: Item, count: Count, by: Item) -> bool
    ensures { result ≡ is_covered item count by }
{
    let Item::Unused { bytes } = by else {
        return false;
    };
    let covered = match (item, count) {
        (Item::Equal { kind, .. }, _) | (Item::Num(kind), Count::One) => width(kind),
        (Item::Num(kind), Count::Fixed(length)) => u64::from(length) * width(kind),
        _ => return false,
    };
    covered == u64::from(bytes)
}

fn width(kind: Kind) -> u64
    ensures { result ≡ width kind }
{
    kind.width() as u64
}

// Checks whether an array of the new set has at least the old one's capacity.
pub(crate) fn holds_as_much(one: Count, other: Count) -> bool
    ensures { result ≡ holds_as_much one other }
{
    match (one, other) {
        (
            Count::Counted { capacity: one, .. },
            Count::Counted {
                capacity: other,
                ..
            },
        ) => { one <= other }
        _ => true,
    }
}
