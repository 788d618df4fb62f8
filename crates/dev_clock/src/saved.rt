// Saving and restoring a clock board's devices.
ghost use Rattle.std.specs.Prelude.{◌≡◌, IfOk};
ghost use Rattle.dev_base.specs.Cells.{AreOf};
ghost use Rattle.dev_base.specs.Levels.{IsUpTo};
ghost use Rattle.dev_pic.specs.Cells.{IsChipCells};
ghost use Rattle.vms_rtc.specs.Cells.{kinds};
ghost use Rattle.vms_rtc.specs.declared.limits.TheConstants.{NEWEST_CLOCK};
ghost use Rattle.dev_clock.specs.Saved.{IsPlaced, clock_back, later as later_of, slave_line as slave_line_of};

use crate::cells::ClockCells;
use crate::devices::ClockDevices;
use dev_base::{NEWEST, byte_at, has, load_device, moment_at, save_device};
use dev_board::{Devices, Misfit};
use vms_kinds::DevCells;
use vms_rtc::{NEWEST_CLOCK, Rtc};

/// The place of the chip among the devices of a clock set; those of the board are next.
pub(crate) const CLOCK_DEVICE: u32 = 0;

/// The number of the rule that the slave remembers the chip's line, after the three rules of its
/// own cells.
pub(crate) const LINE_RULE: u8 = 4;

/// The place of the remembered lines among the cells of an 8259A.
pub(crate) const LINES_CELL: usize = vms_fields::pic::LINES;

impl ClockDevices {
    ghost use Rattle.dev_clock.specs.Saved.{AreClockCells, MaySaveUnder, restored, saved};
    ghost use Rattle.dev_clock.specs.Sound.{IsSound};

    /// Returns the cells of the devices in clock set `set`.
    ///
    /// # Requires
    ///
    /// `set` is from the chip's version to the newest clock set.
    #[tactic(auto, unfolding(crate::specs::Saved::saved))]
    pub fn cells(&self, set: u8) -> ClockCells
        requires { MaySaveUnder self.now.clock.version set }
        ensures { result ≡ saved set self.now }
    {
        ClockCells {
            clock: save_device(self.clock.version(), set, self.board.now(), &self.clock),
            board: self.board.cells(NEWEST),
        }
    }

    /// Returns the devices that `cells`, of the newest clock set, describe, with a chip of version
    /// `version`.
    ///
    /// # Requires
    ///
    /// `version` is 1 or 2. Each of `cells` fits its kind, and absent ones are at defaults.
    ///
    /// # Errors
    ///
    /// - [`Misfit::Unsound`]: a device breaks a rule. The first is named; the chip's rules come
    ///   before those of the board's devices. The chip's rule 4 is that the slave remembers its
    ///   line as it is.
    /// - [`Misfit::LinesDisagree`]: no rule fails, but the master remembers other lines than the
    ///   devices have.
    #[tactic(auto, unfolding(crate::specs::Saved::joined))]
    pub fn of_cells(version: u8, cells: &ClockCells) -> Result<ClockDevices, Misfit>
        requires version { IsUpTo NEWEST_CLOCK version }
        requires cells { AreClockCells cells.now }
        ensures restored { result ≡ restored version cells.now }
        ensures sound { IfOk result (λ devices. IsSound devices) }
    {
        let moment = moment_at(&cells.board.timer, 0);
        let line = slave_line(&cells.board.slave);
        let clock = restore_clock(version, moment, line, &cells.clock)?;
        match Devices::of_cells(NEWEST, &cells.board) {
            Ok(board) => Ok(ClockDevices { clock, board }),
            Err(misfit) => Err(later(misfit)),
        }
    }
}

// Returns the line at the slave's first input, as the slave's cells have it.
fn slave_line(slave: &DevCells) -> bool
    requires { IsChipCells slave.now.items }
    ensures { result ≡ slave_line_of slave.now.items }
{
    has(byte_at(slave, LINES_CELL), 0)
}

// Returns the chip that its cells describe, or the first rule that fails; the slave remembers
// `line`.
#[tactic(auto, unfolding(crate::specs::Saved::with_line, dev_board::specs::Saved::by_device, dev_base::specs::Hooks::hook_result))]
fn restore_clock(version: u8, moment: u64, line: bool, cells: &DevCells) -> Result<Rtc, Misfit>
    requires version { IsUpTo NEWEST_CLOCK version }
    requires cells { AreOf (kinds NEWEST_CLOCK) cells.now.items }
    ensures { result ≡ clock_back version line cells.now.items }
{
    match load_device::<Rtc>(version, NEWEST_CLOCK, moment, cells) {
        Ok(clock) if line == clock.line() => Ok(clock),
        Ok(_) => Err(unsound(LINE_RULE)),
        Err(fault) => Err(unsound(fault.rule)),
    }
}

// Returns the fault that the chip breaks this rule.
fn unsound(rule: u8) -> Misfit
    ensures { result ≡ Misfit.Unsound CLOCK_DEVICE rule }
{
    Misfit::Unsound {
        device: CLOCK_DEVICE,
        rule,
    }
}

// Returns the board's fault, with its device one place later.
#[tactic(auto, unfolding(crate::specs::Saved::later))]
fn later(misfit: Misfit) -> Misfit
    requires { IsPlaced misfit }
    ensures { result ≡ later_of misfit }
{
    match misfit {
        Misfit::Unsound { device, rule } => Misfit::Unsound {
            device: device + 1,
            rule,
        },
        Misfit::LinesDisagree { device } => Misfit::LinesDisagree { device: device + 1 },
    }
}
