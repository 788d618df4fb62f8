// The arguments of a command, after they were read.

/// The arguments of `save`: a board, a set of its kind, and a script in the current folder.
#[derive(Clone, Copy)]
pub struct Saving<'a> {
    /// The board's number.
    pub number: u8,
    /// The number of the set.
    pub set: u8,
    /// The script's name.
    pub script: &'a str,
}

/// The arguments of `load` and `play`: a board, and a script in the current folder.
#[derive(Clone, Copy)]
pub struct OnBoard<'a> {
    /// The board's number.
    pub number: u8,
    /// The script's name.
    pub script: &'a str,
}
