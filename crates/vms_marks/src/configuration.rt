// The configuration, which names the machine.
ghost use Rattle.std.specs.Prelude.{◌≡◌, ◌+◌, ◌≤◌, length};
ghost use Rattle.vms_spec.specs.Lookup.{number_at};
ghost use Rattle.vms_spec.specs.Streams.{configuration};

use crate::{Name, heads, name_of};
use arrayvec::ArrayVec;
use byteorder::{BigEndian, ByteOrder};
use vms_spec::LONGEST_NAME;

/// The number of bytes of a configuration before its name: the mark and the length of the name.
pub const CONFIGURATION_FRONT: usize = 5;

/// The greatest number of bytes of a configuration.
pub const LONGEST_CONFIGURATION: usize = CONFIGURATION_FRONT + LONGEST_NAME;

/// The configuration of a stream.
#[derive(Clone, Debug, Drop, PartialEq, Eq)]
pub struct Configuration {
    /// The name of the machine.
    pub machine: Name,
}

impl Configuration {
    ghost use Rattle.vms_marks.specs.Heads.{configuration_in};

    /// Returns the bytes of the configuration, from its mark to the end of its name.
    pub fn bytes(&self) -> ArrayVec<u8, LONGEST_CONFIGURATION>
        ensures { result.items ≡ configuration self.now.machine.items }
    {
        heads::configuration(&self.machine)
    }

    /// Returns the length of the name in a configuration that begins with `front`. No machine has a
    /// name of more than 255 bytes.
    ///
    /// # Requires
    ///
    /// `front` has at least [`CONFIGURATION_FRONT`] bytes.
    pub fn name_length(front: &[u8]) -> u32
        requires { CONFIGURATION_FRONT ≤ length front.now }
        ensures { result ≡ number_at 4 1 front.now }
    {
        BigEndian::read_u32(&front[1..])
    }

    /// Returns the configuration with these `bytes`. The mark isn't checked.
    ///
    /// # Requires
    ///
    /// `bytes` has the length that follows from the length of the name, and at most
    /// [`LONGEST_CONFIGURATION`] bytes.
    pub fn of(bytes: &[u8]) -> Configuration
        requires long { length bytes.now ≡ CONFIGURATION_FRONT + number_at 4 1 bytes.now }
        requires most { length bytes.now ≤ LONGEST_CONFIGURATION }
        ensures { result ≡ configuration_in bytes.now }
    {
        Configuration {
            machine: name_of(&bytes[CONFIGURATION_FRONT..]),
        }
    }
}
