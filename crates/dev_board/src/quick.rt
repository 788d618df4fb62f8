// Accesses that touch no interrupt line, in a few instructions.
ghost use Rattle.std.specs.Prelude.{◌≡◌, IfSome, MatchOption, true, false};
ghost use Rattle.dev_base.specs.Bits.{has as has_of};
ghost use Rattle.dev_board.specs.Ports.{read as read_of, target_of, write as written};
ghost use Rattle.dev_board.specs.Sound.{HasDevices};
ghost use Rattle.dev_board.specs.Touch.{read_touches, saying};
ghost use Rattle.dev_board.specs.Step.{step};
ghost use Rattle.dev_board.specs.declared.touch.Touch.TheVariants.{Untouched};
ghost use Rattle.dev_pic.specs.Pair.{int_of};
ghost use Rattle.dev_serial.specs.Port.{line_of};

use crate::devices::Devices;
use crate::event::Event;
use crate::parts::{NO_DEVICE, Parts};
use dev_base::has;

/// The master's port of commands.
const COMMAND_PORT: u16 = 0x20;

/// The port of counter 0.
const COUNTER_PORT: u16 = 0x40;

/// The port of the Transmitter Holding Register.
const TRANSMIT_PORT: u16 = 0x3f8;

/// The port of the Line Status Register.
const STATUS_PORT: u16 = 0x3fd;

impl Devices {
    /// Applies `event` and returns the value and the interrupt output, if the event is an access that
    /// touches no interrupt line, and one of the most frequent. Otherwise nothing happens, and it
    /// returns `None`.
    ///
    /// These are reads of the line status, of counter 0 and of ports without a device, writes of a
    /// byte to be sent that has to wait, and ends of interrupts.
    #[inline(always)]
    pub fn at_once(&mut self, event: Event) -> Option<(Option<u8>, bool)>
        ensures { MatchOption result (self.new ≡ self.old)
            (λ done. (saying done.0 done.1, self.new) ≡ step event self.old) }
    {
        match event {
            Event::Read { port } => {
                let value = self.parts.read_at_once(port)?;
                Some((Some(value), self.kept.int))
            }
            Event::Write { port, value } => {
                if port == TRANSMIT_PORT {
                    if self.parts.queue(value) {
                        return Some((None, self.kept.int));
                    }
                    return None;
                }
                if port == COMMAND_PORT && !has(value, 4) {
                    self.kept.int = self.parts.command(value);
                    return Some((None, self.kept.int));
                }
                None
            }
            _ => None,
        }
    }
}

impl Parts {
    // Reads the port `port`, if that touches no line and can be done at once. Otherwise nothing
    // happens.
    #[inline(always)]
    fn read_at_once(&mut self, port: u16) -> Option<u8>
        ensures read { MatchOption result (self.new ≡ self.old)
            (λ value. (value, self.new) ≡ read_of port self.old) }
        ensures touch { IfSome result
            (λ value. read_touches (target_of self.old.level port) value ≡ Untouched) }
    {
        match port {
            STATUS_PORT => self.serial.status(),
            COUNTER_PORT => Some(self.pit.read_first(self.moment)),
            _ => {
                if self.has_port(port) {
                    None
                } else {
                    Some(NO_DEVICE)
                }
            }
        }
    }

    // Writes a byte to be sent, if all that it does is to wait. Otherwise nothing happens, and it
    // returns `false`.
    #[inline(always)]
    fn queue(&mut self, value: u8) -> bool
        ensures queued { result ≡ true → self.new ≡ written TRANSMIT_PORT value self.old }
        ensures stays { result ≡ false → self.new ≡ self.old }
        ensures kept { HasDevices self.new }
        ensures line { line_of self.old.moment self.new.serial
            ≡ line_of self.old.moment self.old.serial }
    {
        self.serial.queue(value)
    }

    // Writes a command to the master's even port, and returns the interrupt output.
    #[inline(always)]
    fn command(&mut self, value: u8) -> bool
        ensures state { self.new ≡ written COMMAND_PORT value self.old }
        ensures kept { HasDevices self.new }
        ensures int { result ≡ int_of self.new.pair }
    {
        self.pair.command(value)
    }
}
