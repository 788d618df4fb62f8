// The footer of a section.
ghost use Rattle.std.specs.Prelude.{◌≡◌, ◌≢◌, ◌↔◌, length, slice_index, IfSome, IsNone};
ghost use Rattle.vms_spec.specs.Streams.{foot};

use crate::{Mark, marked};
use byteorder::{BigEndian, ByteOrder};

/// The number of bytes of a footer: its mark and the section id.
pub const FOOT_LENGTH: usize = 5;

/// The footer of a section.
#[derive(Clone, Copy, Debug, PartialEq, Eq)]
pub struct Foot {
    /// The section id, which is that of the section's head.
    pub id: u32,
}

impl Foot {
    ghost use Rattle.vms_marks.specs.Heads.{foot_in};

    /// Returns the bytes of the footer: its mark and the id.
    pub fn bytes(&self) -> [u8; FOOT_LENGTH]
        ensures { result ≡ foot self.now.id }
    {
        marked(Mark::Footer, self.id)
    }

    /// Returns the footer with these `bytes`, or `None` exactly if the first byte isn't the mark of
    /// a footer.
    pub fn read(bytes: [u8; FOOT_LENGTH]) -> Option<Foot>
        ensures some { IfSome result (λ footer. foot footer.id ≡ bytes) }
        ensures none { IsNone result ↔ (slice_index bytes 0 ≢ 0x7e) }
    {
        if bytes[0] != Mark::Footer.byte() {
            return None;
        }
        Some(Foot::of(&bytes))
    }

    /// Returns the footer with these `bytes`. The mark isn't checked.
    ///
    /// # Requires
    ///
    /// There are [`FOOT_LENGTH`] bytes.
    pub fn of(bytes: &[u8]) -> Foot
        requires { length bytes.now ≡ FOOT_LENGTH }
        ensures { result ≡ foot_in bytes.now }
    {
        Foot {
            id: BigEndian::read_u32(&bytes[1..]),
        }
    }
}
