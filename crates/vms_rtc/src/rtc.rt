// The chip and its calls.
ghost use Rattle.std.specs.Prelude.{◌≡◌, ◌≤◌, IsTrue};
ghost use Rattle.dev_base.specs.declared.limits.TheConstants.{LAST_MOMENT};

use crate::limits::{
    DATA_PORT, INDEX_PORT, NMI_SINCE, REGISTER_A, REGISTER_B, REGISTER_C, REGISTER_D, REGISTERS,
};
use crate::ticks::{ends_within, next_end, period_of};
use dev_base::{bits_where, has};

/// The clock chip, of version 1 or 2. Version 2 has an NMI mask.
#[derive(Clone, Copy, Debug, PartialEq, Eq)]
pub struct Rtc {
    /// The version, 1 or 2.
    pub(crate) version: u8,
    /// The index of the selected register, 0 to 63.
    pub(crate) index: u8,
    /// The registers.
    pub(crate) cmos: [u8; REGISTERS],
    /// Whether NMI is masked. Version 1 has no mask.
    pub(crate) nmi_mask: bool,
    // The periodic interrupt flag.
    pub(crate) pf: bool,
}

impl Rtc {
    ghost use Rattle.dev_base.specs.Levels.{IsUpTo};
    ghost use Rattle.vms_rtc.specs.Chip.{is_port, data_read, data_written, flags_of, index_read, index_written, line_of, passed, power_on, read_of, register, written};
    ghost use Rattle.vms_rtc.specs.Ends.{IsNextEnd, period_in};
    ghost use Rattle.vms_rtc.specs.declared.limits.TheConstants.{NEWEST_CLOCK};

    /// Creates the chip of version `version`, 1 or 2, as it is at power on: all is 0 or false.
    ///
    /// # Requires
    ///
    /// `version` is 1 or 2.
    #[tactic(auto, unfolding(crate::specs::Chip::power_on))]
    pub fn new(version: u8) -> Rtc
        requires { IsUpTo NEWEST_CLOCK version }
        ensures { result ≡ power_on version }
    {
        Rtc {
            version,
            index: 0,
            cmos: [0; REGISTERS],
            nmi_mask: false,
            pf: false,
        }
    }

    /// Returns the version, 1 or 2.
    pub fn version(&self) -> u8
        ensures { result ≡ self.now.version }
    {
        self.version
    }

    /// Reports whether `port` is one of the chip's: 0x70 for the index, 0x71 for the selected
    /// register.
    pub fn is_port(port: u16) -> bool
        ensures { result ≡ is_port port }
    {
        port == INDEX_PORT || port == DATA_PORT
    }

    /// Reads a byte from `port`. A read of register C clears the periodic interrupt flag.
    ///
    /// # Requires
    ///
    /// [`Rtc::is_port`] holds for `port`.
    #[tactic(auto, unfolding(crate::specs::Chip::read_of))]
    pub fn read(&mut self, port: u16) -> u8
        requires { IsTrue (is_port port) }
        ensures { (result, self.new) ≡ read_of port self.old }
    {
        if port == INDEX_PORT {
            self.index_byte()
        } else {
            self.read_data()
        }
    }

    #[tactic(auto, unfolding(crate::specs::Chip::index_read))]
    fn index_byte(&self) -> u8
        ensures { result ≡ index_read self.now }
    {
        if self.version >= NMI_SINCE {
            self.index | bits_where(self.nmi_mask, 0x80)
        } else {
            0xff
        }
    }

    #[tactic(auto, unfolding(crate::specs::Chip::data_read))]
    fn read_data(&mut self) -> u8
        ensures { (result, self.new) ≡ data_read self.old }
    {
        match self.index {
            REGISTER_C => {
                let flags = self.flags();
                self.pf = false;
                flags
            }
            REGISTER_D => 0x80,
            index => self.register(index),
        }
    }

    // Returns the byte of register `number`, 0 if there is none.
    fn register(&self, number: u8) -> u8
        ensures { result ≡ register number self.now }
    {
        match self.cmos.get(usize::from(number)) {
            Some(byte) => *byte,
            None => 0,
        }
    }

    // Returns what register C reads.
    #[tactic(auto, unfolding(crate::specs::Chip::flags_of))]
    fn flags(&self) -> u8
        ensures { result ≡ flags_of self.now }
    {
        bits_where(self.pf, 0x40) | bits_where(self.line(), 0x80)
    }

    /// Writes `value` to `port`. Registers C and D don't keep what is written to them.
    ///
    /// # Requires
    ///
    /// [`Rtc::is_port`] holds for `port`.
    #[tactic(auto, unfolding(crate::specs::Chip::written))]
    pub fn write(&mut self, port: u16, value: u8)
        requires { IsTrue (is_port port) }
        ensures { self.new ≡ written port value self.old }
    {
        if port == INDEX_PORT {
            self.write_index(value);
        } else {
            self.write_data(value);
        }
    }

    #[tactic(auto, unfolding(crate::specs::Chip::index_written))]
    fn write_index(&mut self, value: u8)
        ensures { self.new ≡ index_written value self.old }
    {
        self.index = value % 64;
        if self.version >= NMI_SINCE {
            self.nmi_mask = has(value, 7);
        }
    }

    #[tactic(auto, using(std::proofs::lemmas::List::set_past), unfolding(crate::specs::Chip::data_written))]
    fn write_data(&mut self, value: u8)
        ensures { self.new ≡ data_written value self.old }
    {
        let index = self.index;
        if index == REGISTER_C || index == REGISTER_D {
            return;
        }
        let kept = if index == REGISTER_A {
            value % 128
        } else {
            value
        };
        if usize::from(index) < REGISTERS {
            self.cmos[usize::from(index)] = kept;
        }
    }

    /// Lets time pass from `from` to `to`, both in nanoseconds since power on.
    ///
    /// The periodic interrupt flag is set if a period ends after `from` and not after `to`.
    #[tactic(auto, unfolding(crate::specs::Chip::passed))]
    pub fn passed(&mut self, from: u64, to: u64)
        ensures { self.new ≡ passed from to self.old }
    {
        let ends = ends_within(period_of(self.register(REGISTER_A)), from, to);
        self.pf = self.pf || ends;
    }

    /// Returns the first moment after `from` at which a period of the periodic interrupt ends, or
    /// `None` if none is counted.
    ///
    /// # Requires
    ///
    /// `from` is at most `LAST_MOMENT`.
    pub fn next_end(&self, from: u64) -> Option<u64>
        requires { from ≤ LAST_MOMENT }
        ensures { IsNextEnd (period_in self.now) from result }
    {
        next_end(period_of(self.register(REGISTER_A)), from)
    }

    /// Returns whether the interrupt line is high.
    #[tactic(auto, unfolding(crate::specs::Chip::line_of))]
    pub fn line(&self) -> bool
        ensures { result ≡ line_of self.now }
    {
        self.pf && has(self.register(REGISTER_B), 6)
    }
}
