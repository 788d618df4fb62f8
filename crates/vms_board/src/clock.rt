// The boards of the versions 1 and 2 of the clock chip.
ghost use Rattle.std.specs.Prelude.{◌≡◌};

use crate::board::MachineBoard;
use crate::cells::clock_cells_in;
use crate::machine::Machine;
use dev_base::{NEWEST, save_device};
use dev_board::{Answer, Event, Misfit};
use dev_clock::ClockDevices;
use dev_due::clock_due;
use std::alloc::Global;
use vms_desc::DescSet;
use vms_image::Image;
use vms_io::NoMemory;
use vms_kinds::DevCells;
use vms_rtc::NEWEST_CLOCK;

impl Machine for ClockDevices {
    ghost use Rattle.dev_clock.specs.Sound.{IsSound};
    ghost use Rattle.vms_board.specs.Clock.{clock, AreTold};
    ghost use Rattle.vms_board.specs.ClockStands.{clock_stands};

    ghost family = { clock };

    ghost is_sound = { IsSound };

    ghost are_told = { AreTold };

    fn newest() -> u8 {
        NEWEST_CLOCK
    }

    fn set(alloc: Global, number: u8) -> Result<DescSet, NoMemory> {
        DescSet::clock(alloc, number)
    }

    fn at_power_on(number: u8) -> ClockDevices {
        ClockDevices::new(number)
    }

    fn event(&mut self, event: Event) -> Answer {
        self.event(event)
    }

    fn number(&self) -> u8 {
        self.version()
    }

    fn now(&self) -> u64 {
        self.now()
    }

    fn int(&self) -> bool {
        self.int()
    }

    fn output(&self, counter: u8) -> bool {
        self.output(counter)
    }

    fn has_port(&self, port: u16) -> bool {
        self.has_port(port)
    }

    fn room(&self) -> u8 {
        self.room()
    }

    fn character(&self) -> u64 {
        self.character()
    }

    fn due(&self) -> Option<u64> {
        clock_due(self)
    }

    #[tactic(auto, unfolding(dev_clock::specs::Saved::saved))]
    fn cells(&self, set: u8, device: u32) -> DevCells {
        match device {
            0 => save_device(self.version(), set, self.now(), self.clock()),
            _ => self.board().device_cells(NEWEST, device - 1),
        }
    }

    fn of_images(number: u8, images: &[Image]) -> Result<ClockDevices, Misfit> {
        let cells = clock_cells_in(images);
        ClockDevices::of_cells(number, &cells)
    }

    ghost stands = { clock_stands };
}

impl MachineBoard<ClockDevices> {
    /// Returns the version of the clock chip, 1 or 2.
    pub fn version(&self) -> u8
        ensures { result ≡ self.now.state.clock.version }
    {
        self.number()
    }
}
