// The tables of the serial port.
use crate::rows::{DeviceRow, Needed, Rows, SubRow};
use vms_fields::serial::{NEVER, SERIAL};
use vms_parts::Rel;

const THR_IPENDING: SubRow = (
    "serial/thr_ipending",
    &[Rows::Of(&SERIAL, 1)],
    Needed::Only((0, 255, Rel::Ne, 255)),
);

// One of the counts isn't 0.
const FIFO: SubRow = (
    "serial/fifo",
    &[Rows::Of(&SERIAL, 2)],
    Needed::Either((0, 255, Rel::Ge, 1), (2, 255, Rel::Ge, 1)),
);

const TIMEOUT: SubRow = (
    "serial/timeout",
    &[Rows::Of(&SERIAL, 3)],
    Needed::Only((0, NEVER, Rel::Ne, NEVER)),
);

// One of the numbers of bytes isn't 0.
const RING: SubRow = (
    "serial/ring",
    &[Rows::Of(&SERIAL, 4)],
    Needed::Either((2, 255, Rel::Ge, 1), (5, 255, Rel::Ge, 1)),
);

pub(crate) const SERIAL_AT_1: DeviceRow = DeviceRow {
    instance: 0,
    name: "serial",
    version: 1,
    rows: &[Rows::Of(&SERIAL, 0)],
    subs: &[THR_IPENDING],
};

pub(crate) const SERIAL_AT_2: DeviceRow = DeviceRow {
    version: 2,
    subs: &[THR_IPENDING, FIFO],
    ..SERIAL_AT_1
};

pub(crate) const SERIAL_AT_3: DeviceRow = DeviceRow {
    version: 3,
    subs: &[THR_IPENDING, FIFO, TIMEOUT],
    ..SERIAL_AT_1
};

pub(crate) const SERIAL_AT_4: DeviceRow = DeviceRow {
    version: 4,
    subs: &[THR_IPENDING, FIFO, TIMEOUT, RING],
    ..SERIAL_AT_1
};
