// An offset in a text.
ghost use Rattle.std.specs.Prelude.{◌+◌, ◌<◌, ◌^◌, length};

/// The rest of a text, and the number of its first line, counted from 1. Each line before it had a
/// line feed.
#[derive(Clone, Copy)]
pub(crate) struct Lines<'a> {
    pub(crate) rest: &'a [u8],
    pub(crate) line: usize,
    ghost counted: { line + length rest.now < 2 ^ 64 },
}
