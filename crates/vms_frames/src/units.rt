// What a cursor reads.
ghost use Rattle.std.specs.Prelude.{◌≡◌};

use vms_marks::{CONFIGURATION_FRONT, Head, Name};

/// Where between sections a cursor is.
#[derive(Clone, Copy, Debug, PartialEq, Eq)]
pub enum Between {
    /// Directly after the stream head; only here a configuration may come.
    First,
    /// Directly after a configuration.
    AfterConfiguration,
    /// After a section.
    Later,
}

/// A unit between sections.
#[derive(Debug, Drop, PartialEq, Eq)]
pub enum Step {
    /// A configuration, with the name of a machine.
    Configuration(Name),
    /// The head of a section that is sent whole.
    Section(Head),
    /// The end mark.
    End,
}

/// Whether the sections of a stream have footers.
#[derive(Clone, Copy, Debug, PartialEq, Eq)]
pub enum Tail {
    /// Not known yet: no configuration has come, and no section has ended.
    Unknown,
    /// All have one: a configuration or a footer has come.
    Footed,
    /// None has one: a section has ended without a footer.
    Bare,
}

/// What follows the fields of a section or a subsection.
#[derive(Debug, Drop, PartialEq, Eq)]
pub enum After {
    /// The head of a subsection: its full name and its version id.
    Sub { name: Name, version: u32 },
    /// A unit between sections, whose first byte is held: the section has no footer.
    Next,
    /// The footer of the section.
    Done,
}

/// What was read after fields.
#[derive(Drop)]
pub(crate) enum Behind {
    /// The head of a subsection.
    Sub { name: Name, version: u32 },
    /// The first byte of a unit between sections.
    Next(u8),
    /// The footer of the section.
    Done,
}

/// What a byte after fields begins.
#[derive(Clone, Copy)]
pub(crate) enum Begins {
    /// A subsection.
    Sub,
    /// A footer.
    Footer,
    /// Neither a subsection nor a footer, though one is required.
    NoFooter,
    /// A unit between sections.
    Next,
}

impl Step {
    ghost use Rattle.vms_frames.specs.Calls.{step_long};

    // Returns the unit's number of bytes.
    pub(crate) fn long(&self) -> u64
        ensures { result ≡ step_long self.now }
    {
        match self {
            Step::Configuration(name) => CONFIGURATION_FRONT as u64 + name.len() as u64,
            Step::Section(head) => 14 + head.name.len() as u64,
            Step::End => 1,
        }
    }
}
