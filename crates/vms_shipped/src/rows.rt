// The rows of the tables of the shipped sets.
use vms_fields::Row;
use vms_kinds::Item;
use vms_parts::{Count, Rel};

/// Some fields of a description.
#[derive(Clone, Copy)]
pub(crate) enum Rows {
    /// One field.
    One(FieldRow),
    /// The fields of a device's list that are in a part at the description's version: first the
    /// list, then the part. Part 0 is the section; parts from 1 on are subsections.
    Of(&'static [Row], u8),
}

/// A field of a description that is in no device's list. It has no former names and no test, is in
/// every version, and its default is 0.
#[derive(Clone, Copy)]
pub(crate) struct FieldRow {
    pub(crate) name: &'static str,
    pub(crate) item: Item,
    pub(crate) count: Count,
}

/// A description, whose minimum version is 1 and which has no validations.
#[derive(Clone, Copy)]
pub(crate) struct DescRow {
    pub(crate) name: &'static str,
    pub(crate) version: u32,
    pub(crate) rows: &'static [Rows],
}

/// A test: the number of a field of the description itself, a mask, and the relation of the masked
/// number to a value.
pub(crate) type Asked = (u32, u64, Rel, u64);

/// When a subsection is sent.
#[derive(Clone, Copy)]
pub(crate) enum Needed {
    /// If the test holds.
    Only(Asked),
    /// If one of the tests holds.
    Either(Asked, Asked),
}

/// A subsection, whose version is 1: its name, its fields, and its needed test.
pub(crate) type SubRow = (&'static str, &'static [Rows], Needed);

/// A device: its instance id, its description, and its subsections.
#[derive(Clone, Copy)]
pub(crate) struct DeviceRow {
    pub(crate) instance: u32,
    pub(crate) name: &'static str,
    pub(crate) version: u32,
    pub(crate) rows: &'static [Rows],
    pub(crate) subs: &'static [SubRow],
}

/// A set.
#[derive(Clone, Copy)]
pub(crate) struct SetRow {
    pub(crate) machines: &'static [&'static str],
    pub(crate) structs: &'static [DescRow],
    pub(crate) devices: &'static [DeviceRow],
}
