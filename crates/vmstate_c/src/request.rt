// The arguments and results of a call. C sees them as structures of pointers with lengths, in the
// order of their fields.

/// A slice of the caller's bytes.
#[repr(C)]
#[derive(Clone, Copy)]
pub struct Bytes<'a> {
    /// The bytes.
    pub bytes: &'a [u8],
}

/// A file that a command can read.
#[repr(C)]
#[derive(Clone, Copy)]
pub struct File<'a> {
    /// The name. A name that isn't UTF-8 can't be read.
    pub name: &'a [u8],
    /// The contents.
    pub bytes: &'a [u8],
}

/// The arguments of a call.
#[repr(C)]
#[derive(Clone, Copy)]
pub struct Request<'a> {
    /// The words after the program's name.
    pub words: &'a [Bytes<'a>],
    /// The bytes of standard input.
    pub input: &'a [u8],
    /// The files of the current folder. If two have the same name, the later one counts.
    pub files: &'a [File<'a>],
}

/// The status if a buffer is too small for its text.
pub const TOO_SMALL: u32 = 100;

/// The result of a call.
#[repr(C)]
#[derive(Clone, Copy, Debug, PartialEq, Eq)]
pub struct Answer {
    /// The status.
    pub status: u32,
    /// The length of standard output, in bytes.
    pub out: usize,
    /// The length of standard error, in bytes.
    pub notes: usize,
}

/// Where a file that a call stored is in the caller's buffer, with its name.
#[repr(C)]
#[derive(Clone, Copy, Debug, PartialEq, Eq)]
pub struct Stored {
    /// The offset of the name, in bytes.
    pub name: usize,
    /// The length of the name, in bytes.
    pub name_length: usize,
    /// The offset of the file's bytes.
    pub bytes: usize,
    /// The number of the file's bytes.
    pub length: usize,
}

/// The result of a call that returns the files that it stored.
#[repr(C)]
#[derive(Clone, Copy, Debug, PartialEq, Eq)]
pub struct StoredAnswer {
    /// The status.
    pub status: u32,
    /// The length of standard output, in bytes.
    pub out: usize,
    /// The length of standard error, in bytes.
    pub notes: usize,
    /// The number of stored files.
    pub files: usize,
    /// The length of their names and bytes together.
    pub bytes: usize,
}
