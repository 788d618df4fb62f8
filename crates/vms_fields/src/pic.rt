// The fields of an interrupt controller.
use crate::{BYTE, FLAG, Row, Shape};

/// The first version, and the first set, with an edge/level register.
pub const ELCR_SINCE: u8 = 2;

/// The first set with a level mode.
pub const LTIM_SINCE: u8 = 4;

/// The fields of an 8259A, in the order of their cells in the newest set.
pub const I8259: [Row; 17] = [
    ("irr", &[], BYTE),
    ("isr", &[], BYTE),
    ("imr", &[], BYTE),
    ("lines", &[], BYTE),
    ("lowest", &[], BYTE),
    ("base", &[], BYTE),
    ("init_state", &[], BYTE),
    ("icw4", &[], FLAG),
    ("single", &[], FLAG),
    ("read_isr", &[], FLAG),
    ("poll", &[], FLAG),
    ("special_mask", &[], FLAG),
    ("auto_eoi", &[], FLAG),
    ("rotate", &[], FLAG),
    ("nested", &[], FLAG),
    (
        "elcr",
        &[],
        Shape {
            first_set: ELCR_SINCE as u32,
            since: ELCR_SINCE as u32,
            ..BYTE
        },
    ),
    (
        "ltim",
        &[],
        Shape {
            first_set: LTIM_SINCE as u32,
            part: 1,
            ..FLAG
        },
    ),
];

/// The index of the cell of `irr` in the newest set. Those of the other fields follow.
///
/// Contracts of the functions that read cells compare these constants with the places of the names.
pub const IRR: usize = 0;

pub const ISR: usize = IRR + 1;

pub const IMR: usize = ISR + 1;

pub const LINES: usize = IMR + 1;

pub const LOWEST: usize = LINES + 1;

pub const BASE: usize = LOWEST + 1;

pub const INIT_STATE: usize = BASE + 1;

pub const ICW4: usize = INIT_STATE + 1;

pub const SINGLE: usize = ICW4 + 1;

pub const READ_ISR: usize = SINGLE + 1;

pub const POLL: usize = READ_ISR + 1;

pub const SPECIAL_MASK: usize = POLL + 1;

pub const AUTO_EOI: usize = SPECIAL_MASK + 1;

pub const ROTATE: usize = AUTO_EOI + 1;

pub const NESTED: usize = ROTATE + 1;

pub const ELCR: usize = NESTED + 1;

pub const LTIM: usize = ELCR + 1;

/// The number of cells of an 8259A in the newest set.
pub const CELLS: usize = LTIM + 1;
