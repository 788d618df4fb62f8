//! The kinds of number in a device section, and their bytes.
//!
//! The names follow VMState's number fields. Each kind has a width in bytes, a range and one
//! encoding: two's complement, the highest byte first.
#![tactic(auto)]

ghost use Rattle.std.specs.Prelude.{◌++◌, drop, ◌≡◌, ◌<◌, ◌≤◌, ◌↔◌, length, IsTrue, IfSome, IsNone};
ghost use Rattle.vms_kinds.specs.Codes.{width, lowest, highest, InRange, code, value_of, IsBadBool};

use arrayvec::ArrayVec;
use byteorder::{BigEndian, ByteOrder};

/// The kind of a number, like VMState's `VMSTATE_UINT8` to `VMSTATE_INT64`, `VMSTATE_BOOL` and
/// `VMSTATE_TIMER`.
#[derive(Clone, Copy, Debug, PartialEq, Eq)]
pub enum Kind {
    /// An unsigned number of 1 byte.
    U8,
    /// An unsigned number of 2 bytes.
    U16,
    /// An unsigned number of 4 bytes.
    U32,
    /// An unsigned number of 8 bytes.
    U64,
    /// A signed number of 1 byte.
    I8,
    /// A signed number of 2 bytes.
    I16,
    /// A signed number of 4 bytes.
    I32,
    /// A signed number of 8 bytes.
    I64,
    /// One byte, 0 or 1. Any other byte is refused.
    Bool,
    /// A moment in nanoseconds, 8 bytes; 2^64 - 1 if the timer isn't pending.
    Timer,
}

/// What one field of a description writes to a section.
#[derive(Clone, Copy, Debug, PartialEq, Eq)]
pub enum Item {
    /// A number, held in one cell.
    Num(Kind),
    /// A number that must be `value`, like `VMSTATE_UINT8_EQUAL`. It has no cell.
    Equal { kind: Kind, value: i128 },
    /// Bytes that are written as zeros and skipped, like `VMSTATE_UNUSED`. They have no cell.
    Unused { bytes: u16 },
    /// The structure with this number in the set.
    Struct(u32),
}

/// The most numbers in one device's state.
pub const MOST_CELLS: usize = 96;

/// The number of the newest shipped set of the boards isa-0 to isa-4. The oldest is 0.
pub const NEWEST_SET: u8 = 4;

/// The number of the newest shipped set of the boards with a clock chip. The oldest is 1.
pub const NEWEST_CLOCK_SET: u8 = 2;

/// The numbers of one device's state, in the order of its description, at most `MOST_CELLS`.
pub type DevCells = ArrayVec<i128, MOST_CELLS>;

impl Kind {
    /// Returns the number of bytes: 1, 2, 4 or 8.
    pub fn width(self) -> usize
        ensures { result ≡ width self }
    {
        match self {
            Kind::U8 | Kind::I8 | Kind::Bool => 1,
            Kind::U16 | Kind::I16 => 2,
            Kind::U32 | Kind::I32 => 4,
            Kind::U64 | Kind::I64 | Kind::Timer => 8,
        }
    }

    // Returns the least and the greatest number of this kind.
    fn range(self) -> (i128, i128)
        ensures first { result.0 ≡ lowest self }
        ensures last { result.1 ≡ highest self }
    {
        match self {
            Kind::U8 => (0, u8::MAX as i128),
            Kind::U16 => (0, u16::MAX as i128),
            Kind::U32 => (0, u32::MAX as i128),
            Kind::U64 | Kind::Timer => (0, u64::MAX as i128),
            Kind::I8 => (i8::MIN as i128, i8::MAX as i128),
            Kind::I16 => (i16::MIN as i128, i16::MAX as i128),
            Kind::I32 => (i32::MIN as i128, i32::MAX as i128),
            Kind::I64 => (i64::MIN as i128, i64::MAX as i128),
            Kind::Bool => (0, 1),
        }
    }

    /// Reports whether `value` is in this kind's range.
    pub fn in_range(self, value: i128) -> bool
        ensures { IsTrue result ↔ InRange self value }
    {
        let (first, last) = self.range();
        first <= value && value <= last
    }

    /// Returns the bytes of `value`, the highest first.
    ///
    /// # Requires
    ///
    /// `value` is in this kind's range.
    pub fn put(self, value: i128) -> ArrayVec<u8, 8>
        requires { InRange self value }
        ensures { result.items ≡ code self value }
    {
        let width = self.width();
        let mut bytes = [0; 8];
        self.write(value, &mut bytes);
        let mut out = ArrayVec::new();
        let _fits = out.try_extend_from_slice(&bytes[..width]);
        out
    }

    /// Writes the bytes of `value`, the highest first, to the front of `bytes`. The rest stays.
    ///
    /// # Requires
    ///
    /// `value` is in this kind's range, and `bytes` is at least this kind's width long.
    pub fn write(self, value: i128, bytes: &mut [u8])
        requires range { InRange self value }
        requires room { width self ≤ length bytes.old }
        ensures { bytes.new ≡ code self value ++ drop (width self) bytes.old }
    {
        match self {
            Kind::U8 | Kind::Bool => bytes[0] = value as u8,
            Kind::U16 => BigEndian::write_u16(bytes, value as u16),
            Kind::U32 => BigEndian::write_u32(bytes, value as u32),
            Kind::U64 | Kind::Timer => BigEndian::write_u64(bytes, value as u64),
            Kind::I8 => bytes[0] = (value as i8).cast_unsigned(),
            Kind::I16 => BigEndian::write_i16(bytes, value as i16),
            Kind::I32 => BigEndian::write_i32(bytes, value as i32),
            Kind::I64 => BigEndian::write_i64(bytes, value as i64),
        }
    }

    // Reports whether `byte` is an invalid truth value of this kind.
    fn is_bad_bool(self, byte: u8) -> bool
        ensures { IsTrue result ↔ ((self ≡ Kind.Bool) × (1 < byte)) }
    {
        self == Kind::Bool && byte > 1
    }

    /// Returns the number with these `bytes`, or `None` exactly for a `Bool` byte above 1.
    ///
    /// # Requires
    ///
    /// `bytes` is exactly this kind's width long.
    pub fn take(self, bytes: &[u8]) -> Option<i128>
        requires { length bytes.now ≡ width self }
        ensures some { IfSome result (λ value. InRange self value × (bytes.now ≡ code self value)) }
        ensures value { IfSome result (λ value. value ≡ value_of self bytes.now) }
        ensures none { IsNone result ↔ IsBadBool self bytes.now }
    {
        if self.is_bad_bool(bytes[0]) {
            return None;
        }
        Some(self.read(bytes))
    }

    /// Returns the number with these `bytes`. A byte of a `Bool` isn't checked, as [`Kind::take`]
    /// checks it: one above 1 is returned as that number.
    ///
    /// # Requires
    ///
    /// `bytes` is exactly this kind's width long.
    pub fn read(self, bytes: &[u8]) -> i128
        requires { length bytes.now ≡ width self }
        ensures { result ≡ value_of self bytes.now }
    {
        match self {
            Kind::U8 | Kind::Bool => bytes[0] as i128,
            Kind::U16 => BigEndian::read_u16(bytes) as i128,
            Kind::U32 => BigEndian::read_u32(bytes) as i128,
            Kind::U64 | Kind::Timer => BigEndian::read_u64(bytes) as i128,
            Kind::I8 => bytes[0].cast_signed() as i128,
            Kind::I16 => BigEndian::read_i16(bytes) as i128,
            Kind::I32 => BigEndian::read_i32(bytes) as i128,
            Kind::I64 => BigEndian::read_i64(bytes) as i128,
        }
    }
}
