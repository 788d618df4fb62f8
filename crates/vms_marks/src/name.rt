// Names, which follow their length in a stream.
ghost use Rattle.std.specs.Prelude.{◌≡◌, ◌≤◌, length};
ghost use Rattle.vms_spec.specs.declared.TheConstants.{LONGEST_NAME};

use arrayvec::ArrayVec;
use vms_spec::LONGEST_NAME;

/// The name of a section, a subsection or a machine. It has at most 255 bytes, because one byte
/// holds its length.
pub type Name = ArrayVec<u8, LONGEST_NAME>;

/// Returns the name with these `bytes`.
///
/// # Requires
///
/// There are at most 255 bytes.
pub fn name_of(bytes: &[u8]) -> Name
    requires { length bytes.now ≤ LONGEST_NAME }
    ensures { result ≡ record { items = bytes.now } }
{
    let mut name = Name::new();
    let _fits = name.try_extend_from_slice(bytes);
    name
}
