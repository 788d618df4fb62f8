// The head of a stream.

use crate::LONGEST_CONFIGURATION;

/// The first four bytes of a stream, by which it is recognized.
pub const MAGIC: [u8; 4] = *b"QEVM";

/// The head of a stream: the magic and the version 3 of the format.
pub const STREAM_HEAD: [u8; 8] = *b"QEVM\0\0\0\x03";

/// The greatest number of bytes up to the end mark that belong to no section: the stream head, a
/// configuration and the end mark.
pub const BESIDE_SECTIONS: usize = 8 + LONGEST_CONFIGURATION + 1;
