// Finds the description in a stream.
ghost use Rattle.std.specs.Prelude.{◌↔◌, ◌<◌, length, IsTrue};
ghost use Rattle.vms_analyze.specs.Listing.{IsPlace, TellsPlace};

use byteorder::{BigEndian, ByteOrder};
use memchr::memrchr;
use vms_marks::DESCRIPTION_FRONT;

// The mark of a description section.
const MARK: u8 = 0x06;

// Returns whether a description may be at `at`: the mark, and the length of the rest of the input.
fn is_place(input: &[u8], at: usize) -> bool
    requires { at < length input.now }
    ensures { IsTrue result ↔ IsPlace input.now at }
{
    let left = input.len() - at;
    left >= DESCRIPTION_FRONT
        && input[at] == MARK
        && BigEndian::read_u32(&input[at + 1..]) as usize == left - DESCRIPTION_FRONT
}

/// Returns the last offset at which a description may be.
pub(crate) fn last_place(input: &[u8]) -> Option<usize>
    ensures { TellsPlace input.now result }
{
    let mut end = input.len();
    while end > 0 {
        match memrchr(MARK, &input[..end]) {
            Some(at) => {
                if is_place(input, at) {
                    return Some(at);
                }
                end = at;
            }
            None => return None,
        }
    }
    None
}
