// The head of a subsection.
ghost use Rattle.std.specs.Prelude.{◌≡◌, ◌+◌, ◌≤◌, length, slice_index};
ghost use Rattle.vms_spec.specs.Streams.{sub_head};

use crate::{Name, heads, name_of};
use arrayvec::ArrayVec;
use byteorder::{BigEndian, ByteOrder};
use vms_spec::LONGEST_NAME;

/// The number of bytes of a subsection head before its name: the mark and the length of the name.
pub const SUB_FRONT: usize = 2;

/// The greatest number of bytes of a subsection head.
pub const LONGEST_SUB_HEAD: usize = SUB_FRONT + LONGEST_NAME + 4;

/// The head of a subsection.
#[derive(Clone, Debug, Drop, PartialEq, Eq)]
pub struct SubHead {
    /// The full name of the subsection's description.
    pub name: Name,
    /// The version id of the fields that follow.
    pub version: u32,
}

impl SubHead {
    ghost use Rattle.vms_marks.specs.Heads.{sub_head_in};

    /// Returns the bytes of the head, from its mark to its version.
    pub fn bytes(&self) -> ArrayVec<u8, LONGEST_SUB_HEAD>
        ensures { result.items ≡ sub_head self.now.name.items self.now.version }
    {
        heads::sub_head(&self.name, self.version)
    }

    /// Returns the length of the name in a head that begins with `front`. The version follows the
    /// name.
    ///
    /// # Requires
    ///
    /// `front` has at least [`SUB_FRONT`] bytes.
    pub fn name_length(front: &[u8]) -> usize
        requires { SUB_FRONT ≤ length front.now }
        ensures { result ≡ slice_index front.now 1 }
    {
        front[1] as usize
    }

    /// Returns the subsection head with these `bytes`. The mark isn't checked.
    ///
    /// # Requires
    ///
    /// `bytes` has the length that follows from the length of the name.
    pub fn of(bytes: &[u8]) -> SubHead
        requires { length bytes.now ≡ 6 + slice_index bytes.now 1 }
        ensures { result ≡ sub_head_in bytes.now }
    {
        let end = bytes.len() - 4;
        SubHead {
            name: name_of(&bytes[SUB_FRONT..end]),
            version: BigEndian::read_u32(&bytes[end..]),
        }
    }
}
