// The code of each kind at both ends of its range, compared with bytes that were written by hand.
use std::process::Abort;
use vms_kinds::Kind;

/// Kinds, numbers and their bytes.
static CODES: [(Kind, i128, &[u8]); 9] = [
    (Kind::U8, 0xab, &[0xab]),
    (Kind::U16, 0x0102, &[1, 2]),
    (Kind::U32, 0x0102_0304, &[1, 2, 3, 4]),
    (
        Kind::U64,
        0xffff_ffff_ffff_fffe,
        &[255, 255, 255, 255, 255, 255, 255, 254],
    ),
    (Kind::I8, -1, &[0xff]),
    (Kind::I16, -2, &[0xff, 0xfe]),
    (Kind::I32, -2_147_483_648, &[0x80, 0, 0, 0]),
    (Kind::Bool, 1, &[1]),
    (Kind::Timer, 729_166, &[0, 0, 0, 0, 0, 0x0b, 0x20, 0x4e]),
];

fn is_coded(rt: &impl Abort, kind: Kind, value: i128, bytes: &[u8]) {
    assert!(rt; kind.in_range(value));
    assert!(rt; kind.put(value).as_slice() == bytes);
    assert!(rt; kind.width() == bytes.len());
    assert!(rt; kind.take(bytes) == Some(value));
}

#[test]
fn codes(rt: HostRuntime) {
    for (kind, value, bytes) in &CODES {
        is_coded(&rt, *kind, *value, bytes);
    }
    assert!(rt; Kind::Bool.take(&[2]).is_none());
    assert!(rt; !Kind::I8.in_range(128));
}
