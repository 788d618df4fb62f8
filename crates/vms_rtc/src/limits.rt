// The ports, the registers, the versions and the crystal.

use vms_kinds::NEWEST_CLOCK_SET;

/// The newest version of the chip and the number of the newest clock set. The oldest is 1.
pub const NEWEST_CLOCK: u8 = NEWEST_CLOCK_SET;

/// The first version, and the first clock set, with an NMI mask.
pub(crate) const NMI_SINCE: u8 = vms_fields::clock::NMI_SINCE;

/// The port of the index.
pub(crate) const INDEX_PORT: u16 = 0x70;

/// The port of the register that the index selects.
pub(crate) const DATA_PORT: u16 = 0x71;

/// The register of the rate and the divider (MC146818 data sheet, "Register A").
pub(crate) const REGISTER_A: u8 = 0x0a;

/// The register that enables interrupts ("Register B").
pub(crate) const REGISTER_B: u8 = 0x0b;

/// The register of the interrupt flags, which a read clears ("Register C").
pub(crate) const REGISTER_C: u8 = 0x0c;

/// The register that reports a good battery ("Register D").
pub(crate) const REGISTER_D: u8 = 0x0d;

/// The crystal's ticks in a second.
pub(crate) const CRYSTAL_HERTZ: u64 = 32_768;

/// The number of registers.
pub(crate) const REGISTERS: usize = vms_fields::clock::REGISTERS;
