// The fields of the timer chip.
use crate::{BYTE, FLAG, Row, Shape};
use vms_kinds::Kind;
use vms_spec::Count;

/// The number of counters.
pub const COUNTERS: usize = 3;

/// The first version, and the first set, with latched statuses.
pub const STATUS_SINCE: u8 = 2;

// A number of two bytes.
const WORD: Shape = Shape {
    kind: Kind::U16,
    ..BYTE
};

/// The fields of one counter, in the order of their cells: its structure `pit_channel`.
///
/// The structure's last field, the gate, has no cell. So it isn't in the list.
pub const PIT_CHANNEL: [Row; 11] = [
    ("count", &[], WORD),
    ("mode", &[], BYTE),
    ("rw", &[], BYTE),
    ("bcd", &[], FLAG),
    ("loaded", &[], FLAG),
    (
        "load_time",
        &[],
        Shape {
            kind: Kind::U64,
            ..BYTE
        },
    ),
    ("read_high", &[], FLAG),
    ("wlow_held", &[], FLAG),
    // The low half of a count that is being written, if one is held.
    (
        "wlow",
        &[],
        Shape {
            held_by: Some(WLOW_HELD as u32),
            ..BYTE
        },
    ),
    ("latched", &[], FLAG),
    // The latched count, if one is latched.
    (
        "latch",
        &[],
        Shape {
            held_by: Some(LATCHED as u32),
            ..WORD
        },
    ),
];

/// The fields of the chip itself, whose cells come after those of its counters.
pub const I8254: [Row; 2] = [
    (
        "status_latched",
        &[],
        Shape {
            count: Count::Fixed(COUNTERS as u32),
            first_set: STATUS_SINCE as u32,
            since: STATUS_SINCE as u32,
            ..FLAG
        },
    ),
    (
        "status",
        &[],
        Shape {
            count: Count::Fixed(COUNTERS as u32),
            first_set: STATUS_SINCE as u32,
            since: STATUS_SINCE as u32,
            ..BYTE
        },
    ),
];

/// The index of the cell of `count` among those of its counter. Those of the other fields follow.
///
/// Contracts of the functions that read cells compare these constants with the places of the names.
pub const COUNT: usize = 0;

pub const MODE: usize = COUNT + 1;

pub const RW: usize = MODE + 1;

pub const BCD: usize = RW + 1;

pub const LOADED: usize = BCD + 1;

pub const LOAD_TIME: usize = LOADED + 1;

pub const READ_HIGH: usize = LOAD_TIME + 1;

pub const WLOW_HELD: usize = READ_HIGH + 1;

pub const WLOW: usize = WLOW_HELD + 1;

pub const LATCHED: usize = WLOW + 1;

pub const LATCH: usize = LATCHED + 1;

/// The number of cells of one counter.
pub const CHANNEL_CELLS: usize = LATCH + 1;

/// The index of the first cell of `status_latched` in the newest set. That of `status` follows.
pub const STATUS_LATCHED: usize = COUNTERS * CHANNEL_CELLS;

pub const STATUS: usize = STATUS_LATCHED + COUNTERS;

/// The number of cells of the chip in the newest set.
pub const CELLS: usize = STATUS + COUNTERS;
