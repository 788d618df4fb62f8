// Saving and restoring a board's devices.
ghost use Rattle.std.specs.Prelude.{◌≡◌, ◌+◌, ◌/◌, ◌<◌, ◌≤◌, ◌++◌, [], ◌∷◌, pos, length, get_or, drop, IfOk};
ghost use Rattle.dev_base.specs.Levels.{IsLevel, MayRestore};
ghost use Rattle.dev_base.specs.declared.limits.TheConstants.{LAST_MOMENT as last_moment};
ghost use Rattle.dev_pic.specs.Cells.{IsChipCells};
ghost use Rattle.dev_board.specs.Saved.{AreBoardCells, moment_of as moment_in, timed as timed_of, pair_back, pit_back, serial_back, numbers_back};
ghost use Rattle.vms_kinds.specs.declared.TheConstants.{MOST_CELLS};

use crate::cells::{BoardCells, DeviceCells, cells_of};
use crate::devices::Devices;
use crate::misfit::{MASTER_DEVICE, Misfit, PIT_DEVICE, SERIAL_DEVICE, SLAVE_DEVICE, TIMER_DEVICE};
use crate::parts::Parts;
use crate::wires::is_high;
use dev_base::{LAST_MOMENT, NEWEST, append, load_device, moment_at, save_device};
use dev_pic::{ChipFault, PicPair};
use dev_pit::Pit;
use dev_serial::Serial;
use vms_kinds::DevCells;

impl Devices {
    ghost use Rattle.dev_board.specs.Saved.{MaySaveUnder, AreBoardCells, lists_of, saved, restored};
    ghost use Rattle.dev_board.specs.Sound.{IsSound};

    /// Returns the cells of the devices in set `set`.
    ///
    /// # Requires
    ///
    /// `set` is from the board's level to the newest.
    #[tactic(auto, unfolding(crate::specs::Saved::saved))]
    pub fn cells(&self, set: u8) -> BoardCells
        requires { MaySaveUnder self.now.level set }
        ensures { result ≡ saved set self.now }
    {
        BoardCells {
            timer: self.parts.timer_cells(),
            master: self.parts.master_cells(set),
            slave: self.parts.slave_cells(set),
            pit: self.parts.pit_cells(set),
            serial: self.parts.serial_cells(set),
        }
    }

    /// Returns the cells of device `device` in set `set`, those that `cells` returns for it.
    ///
    /// The devices are 0 the timer, 1 the master, 2 the slave, 3 the timer chip, 4 the serial port.
    ///
    /// # Requires
    ///
    /// `set` is from the board's level to the newest, and there is such a device.
    #[tactic(auto, unfolding(crate::specs::Saved::saved))]
    pub fn device_cells(&self, set: u8, device: u32) -> DevCells
        requires set { MaySaveUnder self.now.level set }
        requires device { device < 5 }
        ensures { result.items ≡ get_or (lists_of (saved set self.now)) device [] }
    {
        match device {
            TIMER_DEVICE => self.parts.timer_cells(),
            MASTER_DEVICE => self.parts.master_cells(set),
            SLAVE_DEVICE => self.parts.slave_cells(set),
            PIT_DEVICE => self.parts.pit_cells(set),
            _ => self.parts.serial_cells(set),
        }
    }

    /// Returns the devices of level `level` that `cells`, of the newest set, describe.
    ///
    /// # Requires
    ///
    /// `level` is one that boards have. Each of `cells` fits its kind, and absent ones are at
    /// defaults.
    ///
    /// # Errors
    ///
    /// - [`Misfit::Unsound`]: a device breaks a rule. It is the first, in the order of the set's
    ///   devices and of the rules' numbers. The timer's one rule is that the moment is at most
    ///   `LAST_MOMENT`.
    /// - [`Misfit::LinesDisagree`]: no rule fails, but the master remembers other lines than the
    ///   devices have.
    #[tactic(auto, unfolding(crate::specs::Saved::joined, crate::specs::Saved::agreed))]
    pub fn of_cells<C: DeviceCells>(level: u8, cells: &C) -> Result<Devices, Misfit>
        requires level { IsLevel level }
        requires cells { AreBoardCells (C.cells cells.now) }
        ensures restored { result ≡ restored level (C.cells cells.now) }
        ensures sound { IfOk result (λ devices. IsSound devices) }
    {
        let moment = timed(moment_of(cells))?;
        let parts = Parts {
            level,
            moment,
            pair: restore_pair(level, moment, cells)?,
            pit: restore_pit(level, moment, cells)?,
            serial: restore_serial(level, moment, cells)?,
        };
        if parts.lines_agree() {
            Ok(Devices::of(parts))
        } else {
            Err(Misfit::LinesDisagree {
                device: MASTER_DEVICE,
            })
        }
    }
}

impl Parts {
    ghost use Rattle.dev_board.specs.Saved.{MaySaveUnder, lines_agree, numbers_at};
    ghost use Rattle.dev_pic.specs.Cells.{saved_cells};
    ghost use Rattle.dev_pit.specs.Cells.{pit_cells as pit_cells_of};
    ghost use Rattle.dev_serial.specs.Saved.{cells_at as port_cells};

    // Returns the cell of the timer.
    #[inline(never)]
    fn timer_cells(&self) -> DevCells
        ensures { result.items ≡ pos self.now.moment ∷ [] }
    {
        cells_of(&[i128::from(self.moment)])
    }

    // Returns the cells of the master in set `set`, the first half of the pair's.
    #[inline(never)]
    fn master_cells(&self, set: u8) -> DevCells
        requires { MaySaveUnder self.now.level set }
        ensures { result.items ≡ saved_cells set self.now.pair.master }
    {
        let mut cells = save_device(self.level, set, self.moment, &self.pair);
        let half = cells.len() / 2;
        cells.truncate(half);
        cells
    }

    // Returns the cells of the slave in set `set`, the second half of the pair's.
    #[inline(never)]
    fn slave_cells(&self, set: u8) -> DevCells
        requires { MaySaveUnder self.now.level set }
        ensures { result.items ≡ saved_cells set self.now.pair.slave }
    {
        second_half(&save_device(self.level, set, self.moment, &self.pair))
    }

    // Returns the cells of the timer chip in set `set`.
    #[inline(never)]
    fn pit_cells(&self, set: u8) -> DevCells
        requires { MaySaveUnder self.now.level set }
        ensures { result.items ≡ pit_cells_of set self.now.pit }
    {
        save_device(self.level, set, self.moment, &self.pit)
    }

    // Returns the cells of the serial port in set `set`.
    #[inline(never)]
    fn serial_cells(&self, set: u8) -> DevCells
        requires { MaySaveUnder self.now.level set }
        ensures { result.items ≡ port_cells (numbers_at set self.now) self.now.serial }
    {
        save_device(self.level, set, self.moment, &self.serial)
    }

    // Tells whether the lines that the master remembers are those of the devices.
    #[tactic(auto, unfolding(crate::specs::Saved::lines_agree))]
    fn lines_agree(&self) -> bool
        ensures { result ≡ lines_agree self.now }
    {
        let lines = self.pair.lines();
        is_high(lines, 0) == self.pit.out(0, self.moment)
            && is_high(lines, 2) == self.pair.slave_int()
            && is_high(lines, 4) == self.serial.line(self.moment)
    }
}

// Returns the moment that the cells describe.
fn moment_of<C: DeviceCells>(cells: &C) -> u64
    requires { AreBoardCells (C.cells cells.now) }
    ensures { result ≡ moment_in (C.cells cells.now) }
{
    moment_at(&cells.timer(), 0)
}

// Returns the moment if it is at most the last, else the rule that it breaks.
#[tactic(auto, unfolding(crate::specs::Saved::timed))]
fn timed(moment: u64) -> Result<u64, Misfit>
    ensures moment { result ≡ timed_of moment }
    ensures last { IfOk result (λ moment. moment ≤ last_moment) }
{
    if moment <= LAST_MOMENT {
        Ok(moment)
    } else {
        Err(Misfit::Unsound {
            device: TIMER_DEVICE,
            rule: 1,
        })
    }
}

// Returns the pair that its chips' cells describe, or the first rule that fails.
fn restore_pair<C: DeviceCells>(level: u8, moment: u64, cells: &C) -> Result<PicPair, Misfit>
    requires pass { MayRestore (numbers_back level moment) }
    requires cells { AreBoardCells (C.cells cells.now) }
    ensures { let cells = C.cells cells.now in
        result ≡ pair_back level cells.master.items cells.slave.items }
{
    pair_of(level, moment, &cells.master(), &cells.slave())
}

#[tactic(auto, unfolding(crate::specs::Saved::by_chip))]
fn pair_of(level: u8, moment: u64, master: &DevCells, slave: &DevCells) -> Result<PicPair, Misfit>
    requires pass { MayRestore (numbers_back level moment) }
    requires master { IsChipCells master.now.items }
    requires slave { IsChipCells slave.now.items }
    ensures { result ≡ pair_back level master.now.items slave.now.items }
{
    let cells = joined(master, slave);
    match load_device::<PicPair>(level, NEWEST, moment, &cells) {
        Ok(pair) => Ok(pair),
        Err(fault) => {
            let fault = ChipFault::of_rule(fault.rule);
            Err(Misfit::Unsound {
                device: MASTER_DEVICE + u32::from(fault.chip),
                rule: fault.rule,
            })
        }
    }
}

// Returns the timer chip that its cells describe, or the first rule that fails.
#[tactic(auto, unfolding(crate::specs::Saved::by_device, dev_base::specs::Hooks::hook_result))]
fn restore_pit<C: DeviceCells>(level: u8, moment: u64, cells: &C) -> Result<Pit, Misfit>
    requires pass { MayRestore (numbers_back level moment) }
    requires cells { AreBoardCells (C.cells cells.now) }
    ensures { result ≡ pit_back level moment (C.cells cells.now).pit.items }
{
    load_device::<Pit>(level, NEWEST, moment, &cells.pit()).map_err(|fault| Misfit::Unsound {
        device: PIT_DEVICE,
        rule: fault.rule,
    })
}

// Returns the serial port that its cells describe, or the first rule that fails.
#[tactic(auto, unfolding(crate::specs::Saved::by_device, dev_base::specs::Hooks::hook_result))]
fn restore_serial<C: DeviceCells>(level: u8, moment: u64, cells: &C) -> Result<Serial, Misfit>
    requires pass { MayRestore (numbers_back level moment) }
    requires cells { AreBoardCells (C.cells cells.now) }
    ensures { result ≡ serial_back level moment (C.cells cells.now).serial.items }
{
    load_device::<Serial>(level, NEWEST, moment, &cells.serial()).map_err(|fault| Misfit::Unsound {
        device: SERIAL_DEVICE,
        rule: fault.rule,
    })
}

// Returns the cells of two chips, one after the other.
fn joined(master: &DevCells, slave: &DevCells) -> DevCells
    requires { length master.now.items + length slave.now.items ≤ MOST_CELLS }
    ensures { result.items ≡ master.now.items ++ slave.now.items }
{
    let mut cells = cells_of(master);
    append(&mut cells, slave);
    cells
}

// Returns the cells of the second of two chips that have the same number of cells.
fn second_half(cells: &DevCells) -> DevCells
    requires { length cells.now.items ≤ MOST_CELLS }
    ensures { result.items ≡ drop (length cells.now.items / 2) cells.now.items }
{
    let (_, second) = cells.split_at(cells.len() / 2);
    cells_of(second)
}
