// The first byte of each unit between fields.
ghost use Rattle.std.specs.Prelude.{◌≡◌, ◌∷◌};
ghost use Rattle.vms_spec.specs.Streams.{be32};
ghost use Rattle.vms_marks.specs.Marks.{byte_of, mark_of};

/// The first byte of a unit of a stream, as QEMU's constants `QEMU_VM_..` have it.
#[derive(Clone, Copy, Debug, PartialEq, Eq)]
pub enum Mark {
    /// The end of the sections.
    End = 0x00,
    /// A section that is sent in parts starts.
    Start = 0x01,
    /// A further part of such a section.
    Part = 0x02,
    /// The last part of such a section.
    SectionEnd = 0x03,
    /// A section that is sent whole, as every device's is.
    Full = 0x04,
    /// A subsection.
    Sub = 0x05,
    /// The description of the stream, after its end mark.
    Description = 0x06,
    /// The configuration, which names the machine.
    Configuration = 0x07,
    /// A command to the receiver.
    Command = 0x08,
    /// The footer of a section.
    Footer = 0x7e,
}

impl Mark {
    /// Returns the mark whose byte is `byte`, or `None` exactly if there is none.
    pub fn of(byte: u8) -> Option<Mark>
        ensures { result ≡ mark_of byte }
    {
        Some(match byte {
            0x00 => Mark::End,
            0x01 => Mark::Start,
            0x02 => Mark::Part,
            0x03 => Mark::SectionEnd,
            0x04 => Mark::Full,
            0x05 => Mark::Sub,
            0x06 => Mark::Description,
            0x07 => Mark::Configuration,
            0x08 => Mark::Command,
            0x7e => Mark::Footer,
            _ => return None,
        })
    }

    /// Returns the byte of the mark.
    pub fn byte(self) -> u8
        ensures { result ≡ byte_of self }
    {
        self as u8
    }
}

/// Returns the bytes of `mark` followed by `number`, big-endian.
///
/// A footer has its id there, a configuration the length of its name, and a description section the
/// length of its text.
pub fn marked(mark: Mark, number: u32) -> [u8; 5]
    ensures { result ≡ byte_of mark ∷ be32 number }
{
    let [a, b, c, d] = number.to_be_bytes();
    [mark.byte(), a, b, c, d]
}
