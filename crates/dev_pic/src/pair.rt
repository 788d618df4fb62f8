// The master and the slave.
ghost use Rattle.std.specs.Prelude.{◌≡◌, IsTrue};

use crate::bits::without_input;
use crate::chip::{CASCADE, Chip, InitState, Role};
use crate::levels::ELCR_SINCE;

/// The master's port with A0 low.
const MASTER_EVEN: u16 = 0x20;

/// The master's port with A0 high.
const MASTER_ODD: u16 = 0x21;

/// The slave's port with A0 low.
const SLAVE_EVEN: u16 = 0xa0;

/// The slave's port with A0 high.
const SLAVE_ODD: u16 = 0xa1;

/// The master's edge/level register.
const MASTER_ELCR: u16 = 0x4d0;

/// The slave's edge/level register.
const SLAVE_ELCR: u16 = 0x4d1;

/// A chip at power on.
const POWER_ON: Chip = Chip {
    irr: 0,
    isr: 0,
    imr: 0,
    lines: 0,
    lowest: 7,
    base: 0,
    init_state: InitState::Ready,
    icw4: false,
    single: false,
    read_isr: false,
    poll: false,
    special_mask: false,
    auto_eoi: false,
    rotate: false,
    nested: false,
    elcr: 0,
    ltim: false,
};

/// The two 8259A of a PC: the slave's interrupt output is input 2 of the master.
///
/// Levels are 1 to 4. From level 2 on the chipset has edge/level registers, and at level 4 bit 3 of
/// ICW1 is the level mode (LTIM).
#[derive(Clone, Copy, Debug, PartialEq, Eq)]
pub struct PicPair {
    /// The level, 1 to 4.
    pub(crate) level: u8,
    /// The chip whose output goes to the processor.
    pub(crate) master: Chip,
    /// The chip whose output is input 2 of the master.
    pub(crate) slave: Chip,
}

impl PicPair {
    ghost use Rattle.dev_base.specs.Levels.{IsLevel};
    ghost use Rattle.dev_pic.specs.Pair.{power_on, is_port, slave_int_of, int_of, lines_of, acked, settled_pair, read_pair, written_pair};

    /// Returns the pair at power on, at `level` from 1 to 4.
    ///
    /// # Requires
    ///
    /// `level` is one that boards have, 1 to 4.
    #[tactic(auto, unfolding(crate::specs::Pair::power_on, crate::specs::Pair::chip_on))]
    pub fn new(level: u8) -> PicPair
        requires { IsLevel level }
        ensures { result ≡ power_on level }
    {
        PicPair {
            level,
            master: POWER_ON,
            slave: POWER_ON,
        }
    }

    /// Tells whether `port` is one of the pair's.
    ///
    /// The master has 0x20 and 0x21, the slave 0xa0 and 0xa1. From level 2 on 0x4d0 and 0x4d1 are
    /// their edge/level registers.
    pub fn is_port(&self, port: u16) -> bool
        ensures { result ≡ is_port self.now.level port }
    {
        match port {
            MASTER_EVEN | MASTER_ODD | SLAVE_EVEN | SLAVE_ODD => true,
            MASTER_ELCR | SLAVE_ELCR => self.level >= ELCR_SINCE,
            _ => false,
        }
    }

    /// Reads a byte from `port` of the pair.
    ///
    /// A poll takes the winner as an acknowledge does. The edge/level registers are never polled.
    ///
    /// # Requires
    ///
    /// `port` is one of the pair's at its level.
    #[tactic(auto, unfolding(crate::specs::Pair::read_pair))]
    pub fn read(&mut self, port: u16) -> u8
        requires { IsTrue (is_port self.old.level port) }
        ensures { (result, self.new) ≡ read_pair port self.old }
    {
        match port {
            MASTER_EVEN => self.master.read(Role::Master, false),
            MASTER_ODD => self.master.read(Role::Master, true),
            SLAVE_EVEN => self.slave.read(Role::Slave, false),
            SLAVE_ODD => self.slave.read(Role::Slave, true),
            MASTER_ELCR => self.master.elcr,
            _ => self.slave.elcr,
        }
    }

    /// Writes `value` to `port` of the pair.
    ///
    /// # Requires
    ///
    /// `port` is one of the pair's at its level.
    #[tactic(auto, unfolding(crate::specs::Pair::written_pair))]
    pub fn write(&mut self, port: u16, value: u8)
        requires { IsTrue (is_port self.old.level port) }
        ensures { self.new ≡ written_pair port value self.old }
    {
        match port {
            MASTER_EVEN => self.master.write_even(self.level, value),
            MASTER_ODD => self.master.write_odd(value),
            SLAVE_EVEN => self.slave.write_even(self.level, value),
            SLAVE_ODD => self.slave.write_odd(value),
            MASTER_ELCR => self.master.write_elcr(Role::Master, value),
            _ => self.slave.write_elcr(Role::Slave, value),
        }
    }

    /// Writes `value` to port 0x20 and returns the master's interrupt output.
    #[inline(always)]
    #[tactic(auto, unfolding(crate::specs::Pair::written_pair, crate::specs::Pair::int_of))]
    pub fn command(&mut self, value: u8) -> bool
        ensures state { self.new ≡ written_pair 0x20 value self.old }
        ensures int { result ≡ int_of self.new }
    {
        self.master.write_even(self.level, value);
        self.master.winner(Role::Master).is_some()
    }

    /// Acknowledges an interrupt ("Interrupt Sequence") and returns its vector.
    #[tactic(auto, unfolding(crate::specs::Pair::acked_for))]
    pub fn ack(&mut self) -> u8
        ensures { (result, self.new) ≡ acked self.old }
    {
        match self.master.winner(Role::Master) {
            Some(CASCADE) => {
                let winner = self.slave.winner(Role::Slave);
                let vector = self.slave.answer(winner);
                self.master.take_cascade();
                vector
            }
            winner => self.master.answer(winner),
        }
    }

    /// Updates the input lines to `inputs`, the slave's first.
    ///
    /// In both arguments bits 8 to 15 are the slave's inputs and bits 0 to 7 the master's. Bit 2 is
    /// ignored, since that input is the slave's interrupt output. An input in `edges` has risen
    /// since the last call, whatever its level is now.
    #[tactic(auto, unfolding(crate::specs::Pair::settled_pair))]
    pub fn settle(&mut self, inputs: u16, edges: u16)
        ensures { self.new ≡ settled_pair inputs edges self.old }
    {
        let [slave_inputs, inputs] = inputs.to_be_bytes();
        let [slave_edges, edges] = edges.to_be_bytes();
        self.slave.settle(slave_inputs, slave_edges);
        let cascade = if self.slave_int() { 1 << CASCADE } else { 0 };
        let inputs = without_input(inputs, CASCADE) | cascade;
        self.master.settle(inputs, without_input(edges, CASCADE));
    }

    /// Returns the master's interrupt output; true is high.
    #[tactic(auto, unfolding(crate::specs::Pair::int_of))]
    pub fn int(&self) -> bool
        ensures { result ≡ int_of self.now }
    {
        self.master.winner(Role::Master).is_some()
    }

    /// Returns the slave's interrupt output; true is high.
    #[tactic(auto, unfolding(crate::specs::Pair::slave_int_of))]
    pub fn slave_int(&self) -> bool
        ensures { result ≡ slave_int_of self.now }
    {
        self.slave.winner(Role::Slave).is_some()
    }

    /// Returns the remembered lines: the slave's in bits 8 to 15, the master's in bits 0 to 7.
    #[tactic(auto, unfolding(crate::specs::Pair::lines_of))]
    pub fn lines(&self) -> u16
        ensures { result ≡ lines_of self.now }
    {
        u16::from_be_bytes([self.slave.lines, self.master.lines])
    }
}
