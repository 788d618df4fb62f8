// The head of a section.
ghost use Rattle.std.specs.Prelude.{◌≡◌, ◌+◌, ◌≤◌, ◌↔◌, length, slice_index, IfOk, Err};
ghost use Rattle.vms_spec.specs.Streams.{section_head};

use crate::{Mark, Name, heads, name_of};
use arrayvec::ArrayVec;
use byteorder::{BigEndian, ByteOrder};
use vms_spec::LONGEST_NAME;

/// The number of bytes of a section head before its name: the mark, the section id, and the length
/// of the name.
pub const HEAD_FRONT: usize = 6;

/// The greatest number of bytes of a section head.
pub const LONGEST_HEAD: usize = HEAD_FRONT + LONGEST_NAME + 8;

/// The head of a section that is sent whole.
#[derive(Clone, Debug, Drop, PartialEq, Eq)]
pub struct Head {
    /// The section id, which is any number.
    pub id: u32,
    /// The name of the device's description.
    pub name: Name,
    /// The instance id, which distinguishes devices of one name.
    pub instance: u32,
    /// The version id of the fields that follow.
    pub version: u32,
}

/// A reason why bytes are no section head.
#[derive(Clone, Copy, Debug, PartialEq, Eq)]
pub enum HeadFault {
    /// There is a first byte, and it isn't [`Mark::Full`].
    WrongMark,
    /// The bytes end before the version, or go on after it.
    WrongLength,
}

impl Head {
    ghost use Rattle.vms_marks.specs.Heads.{head_bytes, head_in, HasWrongMark, HasWrongLength};

    /// Returns the bytes of the head, from its mark to its version.
    pub fn bytes(&self) -> ArrayVec<u8, LONGEST_HEAD>
        ensures { result.items ≡ section_head self.now.id self.now.name.items
            self.now.instance self.now.version }
    {
        heads::section_head(self.id, &self.name, self.instance, self.version)
    }

    /// Returns the head with these `bytes`.
    ///
    /// # Errors
    ///
    /// - [`HeadFault::WrongMark`]: there is a first byte, and it isn't [`Mark::Full`].
    /// - [`HeadFault::WrongLength`]: there are fewer bytes than [`HEAD_FRONT`], or not the number
    ///   that the length of the name says.
    pub fn read(bytes: &[u8]) -> Result<Head, HeadFault>
        ensures spelled { IfOk result (λ head. head_bytes head ≡ bytes.now) }
        ensures value { IfOk result (λ head. head ≡ head_in bytes.now) }
        ensures mark { (result ≡ Err HeadFault.WrongMark) ↔ HasWrongMark bytes.now }
        ensures long { (result ≡ Err HeadFault.WrongLength)
            ↔ ((HasWrongMark bytes.now → ⊥) × HasWrongLength bytes.now) }
    {
        if let [mark, ..] = bytes
            && *mark != Mark::Full.byte()
        {
            return Err(HeadFault::WrongMark);
        }
        if bytes.len() < HEAD_FRONT || bytes.len() != 14 + bytes[5] as usize {
            return Err(HeadFault::WrongLength);
        }
        Ok(Head::of(bytes))
    }

    /// Returns the length of the name in a head that begins with `front`. The instance id and the
    /// version follow the name.
    ///
    /// # Requires
    ///
    /// `front` has at least [`HEAD_FRONT`] bytes.
    pub fn name_length(front: &[u8]) -> usize
        requires { HEAD_FRONT ≤ length front.now }
        ensures { result ≡ slice_index front.now 5 }
    {
        front[5] as usize
    }

    /// Returns the head with these `bytes`. The mark isn't checked.
    ///
    /// # Requires
    ///
    /// `bytes` has the length that follows from the length of the name.
    pub fn of(bytes: &[u8]) -> Head
        requires { length bytes.now ≡ 14 + slice_index bytes.now 5 }
        ensures { result ≡ head_in bytes.now }
    {
        let end = bytes.len() - 8;
        Head {
            id: BigEndian::read_u32(&bytes[1..5]),
            name: name_of(&bytes[HEAD_FRONT..end]),
            instance: BigEndian::read_u32(&bytes[end..end + 4]),
            version: BigEndian::read_u32(&bytes[end + 4..]),
        }
    }
}
