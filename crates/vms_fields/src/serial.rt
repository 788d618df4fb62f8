// The fields of the serial port.
use crate::{BYTE, Row, Shape};
use vms_kinds::Kind;
use vms_spec::Count;

/// The number of bytes that a FIFO holds.
pub const FIFO_BYTES: usize = 16;

/// The first version, and the first set, with FIFOs.
pub const FIFOS_SINCE: u8 = 2;

/// The first version at which the divisor has its name.
const RENAMED_SINCE: u8 = 3;

/// The first set with a timeout of the received bytes.
pub const TIMEOUT_SINCE: u8 = 3;

/// The first set that has the FIFOs as rings too.
pub const RINGS_SINCE: u8 = 4;

/// The moment of a timer that isn't pending.
pub const NEVER: u64 = u64::MAX;

// A number of one byte of the FIFOs as counted arrays, and of the FIFOs as rings.
const FIFO: Shape = Shape {
    first_set: FIFOS_SINCE as u32,
    part: 2,
    ..BYTE
};

const RING: Shape = Shape {
    first_set: RINGS_SINCE as u32,
    part: 4,
    ..BYTE
};

/// The fields of the port, in the order of their cells in the newest set.
pub const SERIAL: [Row; 24] = [
    (
        "divisor",
        &["divider"],
        Shape {
            kind: Kind::U16,
            named: RENAMED_SINCE as u32,
            ..BYTE
        },
    ),
    ("ier", &[], BYTE),
    ("iir", &[], BYTE),
    ("lcr", &[], BYTE),
    ("mcr", &[], BYTE),
    ("lsr", &[], BYTE),
    ("scr", &[], BYTE),
    ("rbr", &[], BYTE),
    ("thr", &[], BYTE),
    ("tsr", &[], BYTE),
    (
        "tx_due",
        &[],
        Shape {
            kind: Kind::Timer,
            default: NEVER as i128,
            ..BYTE
        },
    ),
    (
        "fcr",
        &[],
        Shape {
            first_set: FIFOS_SINCE as u32,
            since: FIFOS_SINCE as u32,
            ..BYTE
        },
    ),
    (
        "thr_ipending",
        &[],
        Shape {
            kind: Kind::I8,
            default: -1,
            part: 1,
            ..BYTE
        },
    ),
    ("rx_count", &[], FIFO),
    (
        "rx",
        &[],
        Shape {
            count: Count::Counted {
                by: 0,
                capacity: FIFO_BYTES as u32,
            },
            ..FIFO
        },
    ),
    ("tx_count", &[], FIFO),
    (
        "tx",
        &[],
        Shape {
            count: Count::Counted {
                by: 2,
                capacity: FIFO_BYTES as u32,
            },
            ..FIFO
        },
    ),
    (
        "timeout_at",
        &[],
        Shape {
            kind: Kind::Timer,
            first_set: TIMEOUT_SINCE as u32,
            default: NEVER as i128,
            part: 3,
            ..BYTE
        },
    ),
    (
        "rx_data",
        &[],
        Shape {
            count: Count::Fixed(FIFO_BYTES as u32),
            ..RING
        },
    ),
    ("rx_head", &[], RING),
    ("rx_number", &[], RING),
    (
        "tx_data",
        &[],
        Shape {
            count: Count::Fixed(FIFO_BYTES as u32),
            ..RING
        },
    ),
    ("tx_head", &[], RING),
    ("tx_number", &[], RING),
];

/// The index of the first cell of `divisor` in the newest set. Those of the other fields follow.
///
/// Contracts of the functions that read cells compare these constants with the places of the names.
pub const DIVISOR: usize = 0;

pub const IER: usize = DIVISOR + 1;

pub const IIR: usize = IER + 1;

pub const LCR: usize = IIR + 1;

pub const MCR: usize = LCR + 1;

pub const LSR: usize = MCR + 1;

pub const SCR: usize = LSR + 1;

pub const RBR: usize = SCR + 1;

pub const THR: usize = RBR + 1;

pub const TSR: usize = THR + 1;

pub const TX_DUE: usize = TSR + 1;

pub const FCR: usize = TX_DUE + 1;

pub const THR_IPENDING: usize = FCR + 1;

pub const RX_COUNT: usize = THR_IPENDING + 1;

pub const RX: usize = RX_COUNT + 1;

pub const TX_COUNT: usize = RX + FIFO_BYTES;

pub const TX: usize = TX_COUNT + 1;

pub const TIMEOUT_AT: usize = TX + FIFO_BYTES;

pub const RX_DATA: usize = TIMEOUT_AT + 1;

pub const RX_HEAD: usize = RX_DATA + FIFO_BYTES;

pub const RX_NUMBER: usize = RX_HEAD + 1;

pub const TX_DATA: usize = RX_NUMBER + 1;

pub const TX_HEAD: usize = TX_DATA + FIFO_BYTES;

pub const TX_NUMBER: usize = TX_HEAD + 1;
