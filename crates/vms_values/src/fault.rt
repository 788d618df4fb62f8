// What is read of a text, and what can go wrong.
ghost use Rattle.std.specs.Prelude.{◌≡◌};

use vms_image::Image;
use vms_io::NoMemory;
use vms_spec::ValuesReason;

/// What a values text says.
#[derive(Drop)]
pub struct Values {
    /// The number of the machine that the text names, in the set's list.
    pub machine: Option<u32>,
    /// One image for each device of the set.
    pub images: Vec<Image>,
}

/// Why a values text can't be read.
#[derive(Clone, Copy, Debug, PartialEq, Eq)]
pub enum ValuesFault {
    /// The text is refused at `line`, counted from 1.
    Bad { line: u32, reason: ValuesReason },
    /// Out of memory.
    NoMemory,
}

/// Why the lines of a text can't be read. A text may have more lines than `u32` counts, but none of
/// those is read.
#[derive(Clone, Copy)]
pub(crate) enum LineFault {
    /// The text is refused at `line`, counted from 1.
    Bad { line: usize, reason: ValuesReason },
    /// Out of memory.
    NoMemory,
}

impl From<NoMemory> for LineFault {
    ghost use Rattle.vms_values.specs.declared.fault.LineFault.TheVariants as faults;

    ghost from_gives = { λ _ fault. fault ≡ faults.NoMemory };

    fn from(_: NoMemory) -> Self {
        LineFault::NoMemory
    }
}
