// The tables of the clock chip.
use crate::rows::{DeviceRow, Needed, Rows};
use vms_fields::clock::MC146818;
use vms_parts::Rel;

pub(crate) const MC146818_AT_1: DeviceRow = DeviceRow {
    instance: 0,
    name: "mc146818",
    version: 1,
    rows: &[Rows::Of(&MC146818, 0)],
    // The subsection of the periodic interrupt's flag.
    subs: &[(
        "mc146818/pending",
        &[Rows::Of(&MC146818, 1)],
        Needed::Only((0, 1, Rel::Eq, 1)),
    )],
};

pub(crate) const MC146818_AT_2: DeviceRow = DeviceRow {
    version: 2,
    ..MC146818_AT_1
};
