// The kinds of boards: the words that name their boards and sets, and their sets.
ghost use Rattle.std.specs.Prelude.{◌≡◌, ◌≤◌, IfOk};
ghost use Rattle.vms_desc.specs.Described.{described};
ghost use Rattle.vms_commands.specs.Kinds.{board_front, first_set, newest_of, set_front, set_of};

use dev_base::NEWEST;
use std::alloc::Global;
use vms_desc::DescSet;
use vms_io::NoMemory;
use vms_rtc::NEWEST_CLOCK;

/// A kind of boards, with its own names, numbers and shipped sets.
#[derive(Clone, Copy, Debug, PartialEq, Eq)]
pub enum BoardKind {
    /// `isa-1` to `isa-4`, with the sets `@0` to `@4`.
    Isa,
    /// `clk-1` and `clk-2`, with the sets `@c1` and `@c2`.
    Clock,
}

/// The kinds of boards.
pub(crate) const KINDS: [BoardKind; 2] = [BoardKind::Isa, BoardKind::Clock];

impl BoardKind {
    /// Returns the number of the newest set, which is also the highest number of a board.
    pub fn newest(self) -> u8
        ensures { result ≡ newest_of self }
    {
        match self {
            BoardKind::Isa => NEWEST,
            BoardKind::Clock => NEWEST_CLOCK,
        }
    }

    /// Returns the number of the first set.
    pub(crate) fn first_set(self) -> u8
        ensures { result ≡ first_set self }
    {
        match self {
            BoardKind::Isa => 0,
            BoardKind::Clock => 1,
        }
    }

    /// Returns the text in front of the number in the word of a set: `@` or `@c`.
    pub(crate) fn set_front(self) -> &'static [u8]
        ensures { result.now ≡ set_front self }
    {
        match self {
            BoardKind::Isa => b"@",
            BoardKind::Clock => b"@c",
        }
    }

    /// Returns the text in front of the number in the name of a board: `isa-` or `clk-`.
    pub(crate) fn board_front(self) -> &'static [u8]
        ensures { result.now ≡ board_front self }
    {
        match self {
            BoardKind::Isa => b"isa-",
            BoardKind::Clock => b"clk-",
        }
    }

    /// Returns the set with the number `number`.
    ///
    /// # Errors
    ///
    /// [`NoMemory`] if memory runs out.
    ///
    /// # Requires
    ///
    /// `number` is at most that of the newest set. For `Clock`, 0 gives the set 1.
    pub(crate) fn make_set(self, alloc: Global, number: u8) -> Result<DescSet, NoMemory>
        requires { number ≤ newest_of self }
        ensures { IfOk result (λ set. described set ≡ set_of self number) }
    {
        match self {
            BoardKind::Isa => DescSet::shipped(alloc, number),
            BoardKind::Clock => DescSet::clock(alloc, number),
        }
    }
}
