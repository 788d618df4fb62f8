// How a command ends.
ghost use Rattle.std.specs.Prelude.{◌≡◌, Some};
ghost use Rattle.vms_commands.specs.declared.ending.Ending.TheVariants as endings;

use crate::refused::NoteLine;
use vms_io::{NoMemory, WriteFault};

/// How a command ends that doesn't succeed: one of eleven failures.
///
/// Each variant has a status and a line for standard error. Some variants carry the line, others
/// have a fixed one.
#[derive(Drop)]
pub enum Ending {
    /// The stream is refused (status 1). Holds the line.
    Refused(NoteLine),
    /// The arguments form no command (status 2).
    BadWords,
    /// A values text, a description file or a script is refused (status 3). Holds the line.
    BadText(String),
    /// Two sets aren't compatible (status 4). Holds the line.
    NotCompatible(String),
    /// Reading the input failed (status 5).
    ReadFault,
    /// Writing standard output failed, after a prefix of the text (status 6).
    WriteFault,
    /// The shelf reported a failure (status 7).
    ShelfFault,
    /// The shelf holds no file of a name (status 8). Holds the line.
    NotThere(String),
    /// A file on the shelf is larger than its limit (status 9). Holds the line.
    TooLarge(String),
    /// Out of memory (status 10).
    NoMemory,
    /// The other set would lose something in the stream (status 11). Holds the line.
    WouldLose(NoteLine),
}

impl From<NoMemory> for Ending {
    ghost from_gives = { λ _ ending. ending ≡ endings.NoMemory };

    fn from(_: NoMemory) -> Self {
        Ending::NoMemory
    }
}

impl Ending {
    ghost use Rattle.vms_commands.specs.Endings.{line_of, status_of};

    /// Returns the exit status of the program, 1 to 11.
    pub fn status(&self) -> u8
        ensures { result ≡ status_of (Some self.now) }
    {
        match self {
            Ending::Refused(_) => 1,
            Ending::BadWords => 2,
            Ending::BadText(_) => 3,
            Ending::NotCompatible(_) => 4,
            Ending::ReadFault => 5,
            Ending::WriteFault => 6,
            Ending::ShelfFault => 7,
            Ending::NotThere(_) => 8,
            Ending::TooLarge(_) => 9,
            Ending::NoMemory => 10,
            Ending::WouldLose(_) => 11,
        }
    }

    /// Returns the line for standard error with its line feed.
    pub fn line(&self) -> &[u8]
        ensures { result.now ≡ line_of (Some self.now) }
    {
        match self {
            Ending::BadWords => b"bad words\n",
            Ending::ReadFault => b"read fault\n",
            Ending::WriteFault => b"write fault\n",
            Ending::ShelfFault => b"shelf fault\n",
            Ending::NoMemory => b"out of memory\n",
            Ending::Refused(line) => line.as_slice(),
            Ending::BadText(line) => line.as_bytes(),
            Ending::NotCompatible(line) => line.as_bytes(),
            Ending::NotThere(line) => line.as_bytes(),
            Ending::TooLarge(line) => line.as_bytes(),
            Ending::WouldLose(line) => line.as_slice(),
        }
    }
}

impl From<WriteFault> for Ending {
    ghost from_gives = { λ _ ending. ending ≡ endings.WriteFault };

    fn from(_: WriteFault) -> Self {
        Ending::WriteFault
    }
}
