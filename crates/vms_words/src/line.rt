// Lines of a text.
ghost use Rattle.std.specs.Prelude.{◌≡◌, ◌+◌, ◌++◌, ◌≤◌, length, IfSome};
ghost use Rattle.vms_spec.specs.Spelling.{first_line};
ghost use Rattle.vms_words.specs.Lines.{IsFirstLine};

use arrayvec::ArrayVec;
use memchr::memchr;

/// A line without its line feed, and the text after it.
#[derive(Clone, Copy)]
pub struct NextLine<'a> {
    /// The line, without its line feed.
    pub text: &'a [u8],
    /// The text after the line feed.
    pub after: &'a [u8],
}

/// Returns the first line of `rest`, or `None` exactly if there is no line feed.
#[inline(always)]
pub fn next_line<'a>(rest: &'a [u8]) -> Option<NextLine<'a>>
    ensures first { IsFirstLine (first_line rest.now) result }
    ensures long { IfSome result (λ line.
        length line.text.now + length line.after.now + 1 ≡ length rest.now) }
{
    match memchr(b'\n', rest) {
        Some(end) => Some(NextLine {
            text: &rest[..end],
            after: &rest[end + 1..],
        }),
        None => None,
    }
}

/// Appends `more` to `line`.
///
/// # Requires
///
/// `line` has room for the bytes.
pub fn append<const N: usize>(line: &mut ArrayVec<u8, N>, more: &[u8])
    requires { length line.old.items + length more.now ≤ N }
    ensures { line.new.items ≡ line.old.items ++ more.now }
{
    let _fits = line.try_extend_from_slice(more);
}
