//! The fields of the devices, in one list for each device.
//!
//! The kinds of a device's cells, the cells that it saves, and its rows in the tables of the shipped
//! sets are made from its list.
#![tactic(auto)]

/// The fields of the clock chip, an MC146818.
pub mod clock;
pub mod pic;
pub mod pit;
pub mod serial;

use vms_kinds::Kind;
use vms_spec::Count;

/// A field of a device: its name, its former names, and its shape.
pub type Row = (&'static str, &'static [&'static str], Shape);

/// The type, number and place of a field's cells, and the sets and versions that have it.
#[derive(Clone, Copy)]
pub struct Shape {
    /// The kind of each cell.
    pub kind: Kind,
    /// The number of cells.
    pub count: Count,
    /// The number of the first set that has the field.
    pub first_set: u32,
    /// The first version of its section or subsection that has the field.
    pub since: u32,
    /// The first version at which the field has its name. Earlier ones use the first of its former names.
    pub named: u32,
    /// The number in each cell if a stream doesn't have the field.
    pub default: i128,
    /// The number, in the same description, of the flag that says whether the field is present. A
    /// field without one is always present.
    pub held_by: Option<u32>,
    /// The number of the subsection that has the field, from 1 on; 0 is the section.
    pub part: u8,
}

/// A one-byte number in the section. Rows start from it and name what differs.
pub const BYTE: Shape = Shape {
    kind: Kind::U8,
    count: Count::One,
    first_set: 0,
    since: 0,
    named: 0,
    default: 0,
    held_by: None,
    part: 0,
};

/// A truth value in the section.
pub const FLAG: Shape = Shape {
    kind: Kind::Bool,
    ..BYTE
};
