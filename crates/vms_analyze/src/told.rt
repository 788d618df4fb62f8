// What a description says. Texts are borrowed from it.
use vms_kinds::Kind;

/// An element under its path.
#[derive(Clone, Copy, Drop)]
pub(crate) enum Element<'a> {
    /// A number that is in the stream.
    Sent {
        path: &'a str,
        kind: Kind,
    },
    /// A number that isn't, with its value.
    Kept {
        path: &'a str,
        kind: Kind,
        value: i128,
    },
    /// A constant of `bytes` bytes.
    Fixed {
        path: &'a str,
        bytes: usize,
    },
    /// `bytes` unused bytes.
    Skipped {
        path: &'a str,
        bytes: usize,
    },
}

/// A subsection, and whether it is in the stream.
#[derive(Drop)]
pub(crate) struct Sub<'a> {
    pub(crate) name: &'a str,
    pub(crate) sent: bool,
    pub(crate) version: u32,
    pub(crate) elements: Vec<Element<'a>>,
}

/// A device.
#[derive(Drop)]
pub(crate) struct Device<'a> {
    pub(crate) name: &'a str,
    pub(crate) instance: u32,
    pub(crate) version: u32,
    pub(crate) elements: Vec<Element<'a>>,
    pub(crate) subs: Vec<Sub<'a>>,
}
