// The boards of the levels 1 to 4.
ghost use Rattle.std.specs.Prelude.{◌≡◌, MatchOption, None};
ghost use Rattle.dev_base.specs.Levels.{IsLevel};
ghost use Rattle.dev_board.specs.Step.{IsSentBy, step};
ghost use Rattle.dev_board.specs.Touch.{saying};
ghost use Rattle.dev_board.specs.declared.event.Event.TheVariants.{Wait};
ghost use Rattle.vms_board.specs.Isa.{machine_of};

use crate::board::MachineBoard;
use crate::cells::BoardImages;
use crate::machine::Machine;
use dev_base::NEWEST;
use dev_board::{Answer, Devices, Event, Misfit};
use dev_due::due;
use std::alloc::Global;
use vms_desc::DescSet;
use vms_image::Image;
use vms_io::NoMemory;
use vms_kinds::DevCells;
use vms_shipped::isa_machine;

impl Machine for Devices {
    ghost use Rattle.dev_board.specs.Sound.{IsSound};
    ghost use Rattle.vms_board.specs.Isa.{isa, AreTold};
    ghost use Rattle.vms_board.specs.IsaStands.{isa_stands};

    ghost family = { isa };

    ghost is_sound = { IsSound };

    ghost are_told = { AreTold };

    fn newest() -> u8 {
        NEWEST
    }

    fn set(alloc: Global, number: u8) -> Result<DescSet, NoMemory> {
        DescSet::shipped(alloc, number)
    }

    fn at_power_on(number: u8) -> Devices {
        Devices::new(number)
    }

    #[inline(always)]
    fn event(&mut self, event: Event) -> Answer {
        self.event(event)
    }

    fn number(&self) -> u8 {
        self.level()
    }

    fn now(&self) -> u64 {
        self.now()
    }

    fn int(&self) -> bool {
        self.int()
    }

    fn output(&self, counter: u8) -> bool {
        self.output(counter)
    }

    fn has_port(&self, port: u16) -> bool {
        self.has_port(port)
    }

    fn room(&self) -> u8 {
        self.room()
    }

    fn character(&self) -> u64 {
        self.character()
    }

    fn due(&self) -> Option<u64> {
        due(self)
    }

    fn cells(&self, set: u8, device: u32) -> DevCells {
        self.device_cells(set, device)
    }

    #[inline(always)]
    fn of_images(number: u8, images: &[Image]) -> Result<Devices, Misfit> {
        Devices::of_cells(number, &BoardImages::new(images))
    }

    ghost stands = { isa_stands };
}

/// Returns the machine's name of a board with the level `level`: `isa-1` to `isa-4`.
///
/// # Requires
///
/// `level` is from 1 to 4.
pub fn machine_name(level: u8) -> &'static str
    requires { IsLevel level }
    ensures { result.now ≡ machine_of level }
{
    isa_machine(level)
}

impl MachineBoard<Devices> {
    /// Lets `ns` nanoseconds pass and returns the interrupt output if no byte leaves the shift
    /// register of the serial port by then. Otherwise nothing happens, and it returns `None`.
    #[inline(always)]
    pub fn pass(&mut self, ns: u64) -> Option<bool>
        ensures passed { MatchOption result (self.new ≡ self.old)
            (λ int. (saying None int, self.new.state) ≡ step (Wait ns) self.old.state) }
        ensures none { result ≡ None → IsSentBy ns self.old.state }
        ensures taken { self.new.taken ≡ self.old.taken }
    {
        let passed = self.devices.pass(ns);
        self.devices.is_sound();
        passed
    }

    /// Applies `event` and returns the value and the interrupt output, if the event is a frequent
    /// access that touches no interrupt line. Otherwise nothing happens, and it returns `None`.
    #[inline(always)]
    pub fn at_once(&mut self, event: Event) -> Option<(Option<u8>, bool)>
        ensures done { MatchOption result (self.new ≡ self.old)
            (λ done. (saying done.0 done.1, self.new.state) ≡ step event self.old.state) }
        ensures taken { self.new.taken ≡ self.old.taken }
    {
        let done = self.devices.at_once(event);
        self.devices.is_sound();
        done
    }

    /// Returns the level, 1 to 4.
    pub fn level(&self) -> u8
        ensures { result ≡ self.now.state.level }
    {
        self.number()
    }
}
