// The tables of the timer, the interrupt controllers and the timer chip.
use crate::rows::{DescRow, DeviceRow, FieldRow, Needed, Rows};
use vms_fields::pic::I8259;
use vms_fields::pit::{COUNTERS, I8254, PIT_CHANNEL};
use vms_kinds::{Item, Kind};
use vms_parts::{Count, Rel};

pub(crate) const TIMER: DeviceRow = DeviceRow {
    instance: 0,
    name: "timer",
    version: 1,
    rows: &[Rows::One(FieldRow {
        name: "now",
        item: Item::Num(Kind::U64),
        count: Count::One,
    })],
    subs: &[],
};

// ---- the interrupt controllers

pub(crate) const FIRST_AT_1: DeviceRow = DeviceRow {
    instance: 0,
    name: "i8259",
    version: 1,
    rows: &[Rows::Of(&I8259, 0)],
    subs: &[],
};

pub(crate) const SECOND_AT_1: DeviceRow = DeviceRow {
    instance: 1,
    ..FIRST_AT_1
};

pub(crate) const FIRST_AT_2: DeviceRow = DeviceRow {
    version: 2,
    ..FIRST_AT_1
};

pub(crate) const SECOND_AT_2: DeviceRow = DeviceRow {
    instance: 1,
    ..FIRST_AT_2
};

pub(crate) const FIRST_AT_4: DeviceRow = DeviceRow {
    // The subsection of the level mode.
    subs: &[(
        "i8259/ltim",
        &[Rows::Of(&I8259, 1)],
        Needed::Only((0, 1, Rel::Eq, 1)),
    )],
    ..FIRST_AT_2
};

pub(crate) const SECOND_AT_4: DeviceRow = DeviceRow {
    instance: 1,
    ..FIRST_AT_4
};

// ---- the timer chip

const GATE: Rows = Rows::One(FieldRow {
    name: "gate",
    item: Item::Equal {
        kind: Kind::U8,
        value: 1,
    },
    count: Count::One,
});

// From version 2 on, the byte of the gate is unused.
const NO_GATE: Rows = Rows::One(FieldRow {
    name: "gate",
    item: Item::Unused { bytes: 1 },
    count: Count::One,
});

// The structure of one counter.
pub(crate) const CHANNEL_AT_1: DescRow = DescRow {
    name: "pit_channel",
    version: 1,
    rows: &[Rows::Of(&PIT_CHANNEL, 0), GATE],
};

pub(crate) const CHANNEL_AT_2: DescRow = DescRow {
    rows: &[Rows::Of(&PIT_CHANNEL, 0), NO_GATE],
    ..CHANNEL_AT_1
};

const CHANNELS: Rows = Rows::One(FieldRow {
    name: "channels",
    item: Item::Struct(0),
    count: Count::Fixed(COUNTERS as u32),
});

pub(crate) const I8254_AT_1: DeviceRow = DeviceRow {
    instance: 0,
    name: "i8254",
    version: 1,
    rows: &[CHANNELS],
    subs: &[],
};

pub(crate) const I8254_AT_2: DeviceRow = DeviceRow {
    version: 2,
    rows: &[CHANNELS, Rows::Of(&I8254, 0)],
    ..I8254_AT_1
};
