// The shipped sets.
ghost use Rattle.std.specs.Prelude.{◌≡◌, ◌≤◌, IfOk};
ghost use Rattle.vms_kinds.specs.declared.TheConstants.{NEWEST_CLOCK_SET, NEWEST_SET};
ghost use Rattle.vms_shipped.specs.ClockSets.{clock_set};
ghost use Rattle.vms_shipped.specs.Numbered.{shipped_set};
ghost use Rattle.vms_parts.specs.Views.{set_of};

use crate::chips::{
    CHANNEL_AT_1, CHANNEL_AT_2, FIRST_AT_1, FIRST_AT_2, FIRST_AT_4, I8254_AT_1, I8254_AT_2,
    SECOND_AT_1, SECOND_AT_2, SECOND_AT_4, TIMER,
};
use crate::clock::{MC146818_AT_1, MC146818_AT_2};
use crate::machines::{CLK_1, CLK_2, ISA_0, ISA_1, ISA_2, ISA_3, ISA_4};
use crate::made::parts;
use crate::rows::SetRow;
use crate::serial::{SERIAL_AT_1, SERIAL_AT_2, SERIAL_AT_3, SERIAL_AT_4};
use std::alloc::Global;
use vms_io::NoMemory;
use vms_parts::Parts;

// The machine isa-0, whose only device is a timer.
const SET_0: SetRow = SetRow {
    machines: &[ISA_0],
    structs: &[],
    devices: &[TIMER],
};

// The boards from isa-1 on.
const SET_1: SetRow = SetRow {
    machines: &[ISA_1],
    structs: &[CHANNEL_AT_1],
    devices: &[TIMER, FIRST_AT_1, SECOND_AT_1, I8254_AT_1, SERIAL_AT_1],
};

const SET_2: SetRow = SetRow {
    machines: &[ISA_1, ISA_2],
    structs: &[CHANNEL_AT_2],
    devices: &[TIMER, FIRST_AT_2, SECOND_AT_2, I8254_AT_2, SERIAL_AT_2],
};

const SET_3: SetRow = SetRow {
    machines: &[ISA_1, ISA_2, ISA_3],
    structs: &[CHANNEL_AT_2],
    devices: &[TIMER, FIRST_AT_2, SECOND_AT_2, I8254_AT_2, SERIAL_AT_3],
};

const SET_4: SetRow = SetRow {
    machines: &[ISA_1, ISA_2, ISA_3, ISA_4],
    structs: &[CHANNEL_AT_2],
    devices: &[TIMER, FIRST_AT_4, SECOND_AT_4, I8254_AT_2, SERIAL_AT_4],
};

/// Returns the parts of the shipped set `s`.
///
/// # Errors
///
/// - [`NoMemory`]: out of memory.
///
/// # Requires
///
/// `s` is at most `NEWEST_SET`.
pub fn shipped_parts(alloc: Global, s: u8) -> Result<Parts, NoMemory>
    requires { s ≤ NEWEST_SET }
    ensures { IfOk result (λ parts. set_of parts ≡ shipped_set s) }
{
    match s {
        0 => parts(alloc, &SET_0),
        1 => parts(alloc, &SET_1),
        2 => parts(alloc, &SET_2),
        3 => parts(alloc, &SET_3),
        _ => parts(alloc, &SET_4),
    }
}

// The boards with a clock chip, which is in front of the devices of isa-4.
const CLOCK_1: SetRow = SetRow {
    machines: &[CLK_1],
    structs: &[CHANNEL_AT_2],
    devices: &[
        MC146818_AT_1,
        TIMER,
        FIRST_AT_4,
        SECOND_AT_4,
        I8254_AT_2,
        SERIAL_AT_4,
    ],
};

const CLOCK_2: SetRow = SetRow {
    machines: &[CLK_1, CLK_2],
    structs: &[CHANNEL_AT_2],
    devices: &[
        MC146818_AT_2,
        TIMER,
        FIRST_AT_4,
        SECOND_AT_4,
        I8254_AT_2,
        SERIAL_AT_4,
    ],
};

/// Returns the parts of the clock set `c`, 1 or 2. For 0 they are those of set 1.
///
/// # Errors
///
/// - [`NoMemory`]: out of memory.
///
/// # Requires
///
/// `c` is at most 2.
pub fn clock_parts(alloc: Global, c: u8) -> Result<Parts, NoMemory>
    requires { c ≤ NEWEST_CLOCK_SET }
    ensures { IfOk result (λ parts. set_of parts ≡ clock_set c) }
{
    match c {
        0 | 1 => parts(alloc, &CLOCK_1),
        _ => parts(alloc, &CLOCK_2),
    }
}
