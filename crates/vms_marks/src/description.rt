// The description section, which follows the end mark.

use vms_spec::LONGEST_TEXT;

/// The number of bytes of a description section before its text: the mark and the length of the
/// text.
pub const DESCRIPTION_FRONT: usize = 5;

/// The greatest number of bytes of a description section.
pub const LONGEST_DESCRIPTION: u64 = DESCRIPTION_FRONT as u64 + LONGEST_TEXT as u64;
