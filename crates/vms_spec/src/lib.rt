//! The definitions of the format: what a description set means, the pieces of streams, what the
//! writer gives, and how values texts are printed and read.
//!
//! The definitions are in `specs/`, one module for each subject. The code of the crate is the enums
//! that the definitions and the public types of the crates above share, and the names of reasons.
#![tactic(auto)]

ghost use Rattle.std.specs.Prelude.{◌≡◌, ◌≤◌, length};
ghost use Rattle.vms_spec.specs.Reasons.{reason_number, reason_word, rule_of};

/// The greatest number of items that the devices of a well-formed set have together. An item of an
/// array counts once for each element of its full length or capacity.
pub const MOST_ITEMS: u32 = 16_384;

/// The greatest number of bytes of one unused item (`VMSTATE_UNUSED`) in a well-formed set.
pub const MOST_UNUSED: u16 = 4096;

/// The greatest number of bytes of a name of a section, a subsection or a machine in a stream: what
/// a length byte can hold.
pub const LONGEST_NAME: usize = 255;

/// The greatest number of bytes of text in a description section.
pub const LONGEST_TEXT: u32 = 16_777_216;

/// How a test compares a masked number with a value.
#[derive(Clone, Copy, Debug, PartialEq, Eq)]
pub enum Rel {
    /// The number is equal to the value.
    Eq,
    /// The number isn't equal to the value.
    Ne,
    /// The number is less than the value.
    Lt,
    /// The number is the value or greater.
    Ge,
}

/// The description whose field a test names.
#[derive(Clone, Copy, Debug, PartialEq, Eq)]
pub enum Whose {
    /// The description that the test belongs to.
    Own,
    /// The device of a subsection. Only a needed test names a field of it.
    Parent,
}

/// The number of elements of a field.
#[derive(Clone, Copy, Debug, PartialEq, Eq)]
pub enum Count {
    /// A single item, not an array.
    One,
    /// An array of this fixed length, as `VMSTATE_ARRAY`.
    Fixed(u32),
    /// An array, as `VMSTATE_VARRAY`, whose length is the number of field `by`, at most `capacity`.
    Counted { by: u32, capacity: u32 },
}

/// A part of a description set. Structures, devices and the subsections of a device are numbered
/// from 0.
#[derive(Clone, Copy, Debug, PartialEq, Eq)]
pub enum Part {
    /// The set itself.
    Set,
    /// The structure of this number.
    Struct(u32),
    /// The device of this number.
    Device(u32),
    /// The subsection whose number is second, of the device whose number is first.
    Sub(u32, u32),
}

/// A place in a description set: a part, or a field of a structure, a device or a subsection.
#[derive(Clone, Copy, Debug, PartialEq, Eq)]
pub struct Place {
    /// The part that the place is in.
    pub part: Part,
    /// The number of the field, or `None` if the part itself is meant.
    pub field: Option<u32>,
}

/// A reason to refuse a stream. Within one unit the reasons are tried in this order
/// (docs/format.md, "Units, offsets and refusals").
#[derive(Clone, Copy, Debug, PartialEq, Eq)]
pub enum Reason {
    /// The input ends inside the unit.
    Truncated,
    /// The magic isn't `QEVM`.
    BadMagic,
    /// The stream's version is 2.
    OldStream,
    /// The stream's version is neither 2 nor 3.
    BadVersion,
    /// Between sections, a mark to which no other reason applies.
    BadMark,
    /// A RAM section starts.
    Ram,
    /// Another section that is sent in parts.
    Iterative,
    /// A command section starts.
    Command,
    /// A subsection of the configuration.
    ConfigurationExtra,
    /// The configuration names no accepted machine.
    WrongMachine,
    /// No device has this name and instance id.
    UnknownSection,
    /// This device's section came already.
    RepeatedSection,
    /// The version id is greater than the description's version.
    TooNew,
    /// The version id is less than the description's minimum version.
    TooOld,
    /// A bool's byte is neither 0 nor 1.
    BadBool,
    /// A constant has another number.
    NotEqual,
    /// A number is greater than the capacity of an array that it counts.
    CountTooLarge,
    /// The device has no subsection of this name.
    UnknownSubsection,
    /// This subsection came already in this section.
    RepeatedSubsection,
    /// A validation of a description fails.
    Invalid,
    /// The rule of this number, one of the device's own, fails.
    Unsound(u8),
    /// There is no footer although one is required, or it has another id.
    BadFooter,
    /// The end mark comes before this device's section.
    MissingSection,
    /// The interrupt lines of the devices contradict each other.
    LinesDisagree,
    /// The byte after the end mark begins no description section.
    Trailing,
    /// The description's length is greater than 16,777,216.
    DescriptionTooLong,
}

impl Reason {
    /// Returns the name of this reason, as a line of the program has it. It has at most 18 bytes.
    pub fn word(self) -> &'static str
        ensures word { result.now ≡ reason_word self }
        ensures short { length result.now ≤ 18 }
    {
        match self {
            Reason::Truncated => "Truncated",
            Reason::BadMagic => "BadMagic",
            Reason::OldStream => "OldStream",
            Reason::BadVersion => "BadVersion",
            Reason::BadMark => "BadMark",
            Reason::Ram => "Ram",
            Reason::Iterative => "Iterative",
            Reason::Command => "Command",
            Reason::ConfigurationExtra => "ConfigurationExtra",
            Reason::WrongMachine => "WrongMachine",
            Reason::UnknownSection => "UnknownSection",
            Reason::RepeatedSection => "RepeatedSection",
            Reason::TooNew => "TooNew",
            Reason::TooOld => "TooOld",
            Reason::BadBool => "BadBool",
            Reason::NotEqual => "NotEqual",
            Reason::CountTooLarge => "CountTooLarge",
            Reason::UnknownSubsection => "UnknownSubsection",
            Reason::RepeatedSubsection => "RepeatedSubsection",
            Reason::Invalid => "Invalid",
            Reason::Unsound(_) => "Unsound",
            Reason::BadFooter => "BadFooter",
            Reason::MissingSection => "MissingSection",
            Reason::LinesDisagree => "LinesDisagree",
            Reason::Trailing => "Trailing",
            Reason::DescriptionTooLong => "DescriptionTooLong",
        }
    }

    /// Returns the number of this reason, from 1 on, by which C learns it. A reason keeps its number
    /// in later versions.
    pub fn number(self) -> u8
        ensures { result ≡ reason_number self }
    {
        match self {
            Reason::Truncated => 1,
            Reason::BadMagic => 2,
            Reason::OldStream => 3,
            Reason::BadVersion => 4,
            Reason::BadMark => 5,
            Reason::Ram => 6,
            Reason::Iterative => 7,
            Reason::Command => 8,
            Reason::ConfigurationExtra => 9,
            Reason::WrongMachine => 10,
            Reason::UnknownSection => 11,
            Reason::RepeatedSection => 12,
            Reason::TooNew => 13,
            Reason::TooOld => 14,
            Reason::BadBool => 15,
            Reason::NotEqual => 16,
            Reason::CountTooLarge => 17,
            Reason::UnknownSubsection => 18,
            Reason::RepeatedSubsection => 19,
            Reason::Invalid => 20,
            Reason::Unsound(_) => 21,
            Reason::BadFooter => 22,
            Reason::MissingSection => 23,
            Reason::LinesDisagree => 24,
            Reason::Trailing => 25,
            Reason::DescriptionTooLong => 26,
        }
    }

    /// Returns the number of the device's rule that fails, or `None` for every reason but
    /// [`Unsound`](Reason::Unsound).
    pub fn rule(self) -> Option<u8>
        ensures { result ≡ rule_of self }
    {
        match self {
            Reason::Unsound(rule) => Some(rule),
            _ => None,
        }
    }
}

/// A reason to refuse a values text at a line. At one line the reasons are tried in this order.
#[derive(Clone, Copy, Debug, PartialEq, Eq)]
pub enum ValuesReason {
    /// The line isn't the required one, or a line is missing or too many.
    Form,
    /// The number is misspelled or outside of its kind's range.
    Number,
    /// The number is greater than the capacity of an array that it counts.
    Count,
    /// The cell isn't present at the set's version, and its number isn't the default.
    Absent,
    /// A validation of this section or subsection fails.
    Invalid,
    /// The subsection's line contradicts its needed test, or the subsection isn't needed and one of
    /// its cells isn't at its default.
    Needed,
}
