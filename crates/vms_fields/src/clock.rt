// The fields of the clock chip.
use crate::{BYTE, FLAG, Row, Shape};
use vms_spec::Count;

/// The number of registers.
pub const REGISTERS: usize = 64;

/// The first version, and the first clock set, with an NMI mask.
pub const NMI_SINCE: u8 = 2;

/// The fields of the clock chip, in the order of their cells in the newest clock set.
pub const MC146818: [Row; 4] = [
    ("index", &[], BYTE),
    (
        "cmos",
        &[],
        Shape {
            count: Count::Fixed(REGISTERS as u32),
            ..BYTE
        },
    ),
    (
        "nmi_mask",
        &[],
        Shape {
            first_set: NMI_SINCE as u32,
            since: NMI_SINCE as u32,
            ..FLAG
        },
    ),
    ("pf", &[], Shape { part: 1, ..FLAG }),
];

/// The index of the first cell of `index` in the newest clock set.
///
/// Contracts of the functions that read cells compare these constants with the places of the names.
pub const INDEX: usize = 0;

/// The index of the first cell of `cmos` in the newest clock set.
pub const CMOS: usize = INDEX + 1;

/// The index of the cell of `nmi_mask` in the newest clock set.
pub const NMI_MASK: usize = CMOS + REGISTERS;

/// The index of the cell of `pf` in the newest clock set.
pub const PF: usize = NMI_MASK + 1;
