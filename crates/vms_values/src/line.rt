// The line that is printed next, or the path that the next line to be read begins with.
ghost use Rattle.std.specs.Prelude.{◌≡◌, ◌+◌, ◌≤◌, ◌++◌, [], take, length, codes};
ghost use Rattle.std.specs.Fmt.{decimal};
ghost use Rattle.vms_values.specs.declared.line.TheConstants.{INDEX_ROOM};

use itoa::Buffer;
use std::marker::Model;

/// The most bytes of a line: the longest path and a number.
const LONGEST: usize = 2969;

/// The most bytes of a path: the names of 65 fields, one in the other, with their elements and
/// dots.
pub(crate) const LONGEST_PATH: usize = 2925;

/// The most bytes after a path: a number of 128 bits with its sign, and what is around it.
pub(crate) const NUMBER_ROOM: usize = 44;

/// The most bytes of an element's number with its brackets.
pub(crate) const INDEX_ROOM: usize = 12;

/// The most bytes of a field in a path: its name, an element's number and a dot.
pub(crate) const PART_ROOM: usize = 45;

/// A line, from its first byte on. The next line keeps the front that both share.
#[derive(Drop)]
pub(crate) struct Line {
    bytes: [u8; LONGEST],
    len: usize,
}

impl Model for Line {
    ghost use Rattle.std.specs.Prelude.{◌≤◌, ℕ, List, take};
    ghost use Rattle.vms_values.specs.declared.line.TheConstants.{LONGEST};

    ghost Value = { List ℕ };

    ghost view = { λ l. take l.len l.bytes };

    ghost invariant = { λ l. l.len ≤ LONGEST };
}

impl Line {
    /// Creates an empty line.
    pub(crate) fn new() -> Line
        ensures { result ≡ [] }
    {
        Line {
            bytes: [0; LONGEST],
            len: 0,
        }
    }

    /// Returns the number of bytes.
    pub(crate) fn len(&self) -> usize
        ensures { result ≡ length self.now }
    {
        self.len
    }

    /// Returns the bytes.
    pub(crate) fn text(&self) -> &[u8]
        ensures { result.now ≡ self.now }
    {
        let bytes = &self.bytes[..];
        &bytes[..self.len]
    }

    /// Appends `piece`.
    pub(crate) fn push(&mut self, piece: &[u8])
        requires { length self.old + length piece.now ≤ LONGEST }
        ensures { self.new ≡ self.old ++ piece.now }
    {
        let end = self.len + piece.len();
        let bytes = &mut self.bytes[..];
        bytes[self.len..end].copy_from_slice(piece);
        self.len = end;
    }

    /// Appends the element number `index` in brackets.
    pub(crate) fn push_index(&mut self, index: u32)
        requires { length self.old + INDEX_ROOM ≤ LONGEST }
        ensures text { self.new ≡ self.old ++ codes "[" ++ decimal index ++ codes "]" }
        ensures long { length self.new ≤ length self.old + INDEX_ROOM }
    {
        if index < 10 {
            self.push(&[b'[', b'0' + index as u8, b']']);
        } else {
            self.push_long_index(index);
        }
    }

    // Appends the element number `index` in brackets. The room for its digits is in this function,
    // which is inlined, so that a number of one digit needs none.
    #[inline(always)]
    fn push_long_index(&mut self, index: u32)
        requires { length self.old + INDEX_ROOM ≤ LONGEST }
        ensures text { self.new ≡ self.old ++ codes "[" ++ decimal index ++ codes "]" }
        ensures long { length self.new ≤ length self.old + INDEX_ROOM }
    {
        let mut digits = Buffer::new();
        self.push(b"[");
        self.push(digits.format(index).as_bytes());
        self.push(b"]");
    }

    /// Keeps only the first `len` bytes.
    pub(crate) fn cut(&mut self, len: usize)
        ensures { self.new ≡ take len self.old }
    {
        self.len = self.len.min(len);
    }
}
