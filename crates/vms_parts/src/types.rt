// The parts of a description set.
use crate::{Listed, Text};
use vms_kinds::{Item, Kind};
use vms_spec::{Count, Rel, Whose};

/// A test of the version that is read or written, and of numbers of the description.
#[derive(Drop)]
pub enum Test {
    /// The version is at least this.
    AtLeast(u32),
    /// The version is less than this.
    Below(u32),
    /// The number of a field of w bytes, modulo 2^(8w) and masked, is in a relation to a value.
    Cell {
        /// The description that the field belongs to.
        whose: Whose,
        /// The number of the field.
        field: u32,
        /// The mask.
        mask: u64,
        /// The relation.
        rel: Rel,
        /// The value that the masked number is compared with.
        value: u64,
    },
    /// The test doesn't hold.
    Not(Box<Test>),
    /// Both tests hold.
    And(Box<Test>, Box<Test>),
    /// One of the tests holds.
    Or(Box<Test>, Box<Test>),
}

/// One field of a description, as VMState's `VMStateField`.
#[derive(Drop)]
pub struct Field {
    /// The name, of 1 to 32 bytes in a well-formed set.
    pub name: Text,
    /// The names that the field had in older sets.
    pub former: Listed<Text>,
    /// The item, or that of each element of an array.
    pub item: Item,
    /// The number of elements.
    pub count: Count,
    /// The first version that has the field. If the field has a test, `since` doesn't matter.
    pub since: u32,
    /// The test by which the field is present, if it has one, as VMState's `field_exists`.
    pub test: Option<Box<Test>>,
    /// The default of each of its cells: the number of a cell that isn't in the bytes.
    pub default: i128,
}

/// The contents of a section, a subsection or a structure, as VMState's `VMStateDescription`.
#[derive(Drop)]
pub struct Desc {
    /// The name.
    pub name: Text,
    /// The version that is written, and the newest that is read.
    pub version: u32,
    /// The oldest version that is read.
    pub minimum: u32,
    /// The fields, in the order of their bytes.
    pub fields: Listed<Field>,
    /// The tests that must hold once the fields have been read, as VMState's `VMSTATE_VALIDATE`.
    pub validate: Listed<Test>,
}

/// A subsection of a device. The name of its description is the full one, for example
/// `serial/fifo`.
#[derive(Drop)]
pub struct Sub {
    /// The description.
    pub desc: Desc,
    /// The test by which the subsection is sent.
    pub needed: Test,
}

/// A device, which has the section of this name and instance id.
#[derive(Drop)]
pub struct Device {
    /// The instance id, which distinguishes devices of one name.
    pub instance: u32,
    /// The description.
    pub desc: Desc,
    /// The subsections.
    pub subs: Listed<Sub>,
}

/// The parts of a description set.
#[derive(Drop)]
pub struct Parts {
    /// The machines whose streams are accepted.
    pub machines: Listed<Text>,
    /// The structures, which `Item::Struct` names by number.
    pub structs: Listed<Desc>,
    /// The devices, in the order in which they are written.
    pub devices: Listed<Device>,
}

/// The form of one cell of a device.
#[derive(Clone, Copy, Debug, PartialEq, Eq)]
pub struct CellForm {
    /// The kind of the cell's number.
    pub kind: Kind,
    /// The number of the cell if it isn't in the bytes.
    pub default: i128,
}
