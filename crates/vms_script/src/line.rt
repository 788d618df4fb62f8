// The lines of a script, and what can be wrong with one.
use arrayvec::ArrayString;
use dev_board::Event;

/// A line of a script.
#[derive(Drop)]
pub enum Line {
    /// Something happens to the board.
    Event(Event),
    /// A line that only a session has. Such lines are rare and their names are long, so they are
    /// boxed.
    Session(Box<SessionLine>),
}

/// A line that only a session has.
#[derive(Drop)]
pub enum SessionLine {
    /// Stores the board's stream as `name`, under the shipped set `set`, which is at or above the
    /// board's level.
    Save { set: u8, name: ArrayString<64> },
    /// Loads the stream `name`.
    Restore { name: ArrayString<64> },
}

/// Why a line of a script is refused. If a line has several reasons, the first of these is
/// returned.
#[derive(Clone, Copy, Debug, PartialEq, Eq)]
pub enum ScriptReason {
    /// The line doesn't have the form of any line.
    Form,
    /// A number or a set is out of range.
    Range,
    /// The last line has no line feed.
    NoEnd,
}

/// Why a text isn't read as a script.
#[derive(Clone, Copy, Debug, PartialEq, Eq)]
pub enum ScriptFault {
    /// The first bad line, counted from 1, and its reason.
    Bad { line: u32, reason: ScriptReason },
    /// Out of memory.
    NoMemory,
}
