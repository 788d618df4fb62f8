// Where cells are in sets, and where their numbers are in the bytes of an image.
use std::alloc::Global;
use std::process::Abort;
use std::test::Fail;
use vms_desc::DescSet;
use vms_descfile::read_set;
use vms_spots::Spot;

/// A number and an array that it counts.
pub(crate) const COUNTED: &str =
    "{\"devices\":[{\"desc\":{\"fields\":[{\"kind\":\"u8\",\"name\":\"n\"},{\"capacity\":2,\"counted\":\"n\",\"kind\":\"u16\",\"name\":\"v\"}],\"name\":\"box\",\"version\":1},\"instance\":0}],\"machines\":[\"lab\"],\"structs\":[]}";

/// A flag, a constant and unused bytes.
const FLAG: &str =
    "{\"devices\":[{\"desc\":{\"fields\":[{\"kind\":\"bool\",\"name\":\"flag\"},{\"equal\":7,\"kind\":\"u8\",\"name\":\"id\"},{\"kind\":\"unused\",\"name\":\"gap\",\"size\":2}],\"name\":\"box\",\"version\":1},\"instance\":0}],\"machines\":[\"lab\"],\"structs\":[]}";

/// Unused bytes, three structures with a counted array each, and a subsection with one.
const NESTED: &str =
    "{\"devices\":[{\"desc\":{\"fields\":[{\"kind\":\"unused\",\"name\":\"gap\",\"size\":4},{\"count\":3,\"kind\":\"struct\",\"name\":\"array\",\"struct\":0}],\"name\":\"box\",\"subsections\":[{\"fields\":[{\"kind\":\"u8\",\"name\":\"n\"},{\"capacity\":2,\"counted\":\"n\",\"kind\":\"u16\",\"name\":\"v\"}],\"name\":\"box/tail\",\"needed\":{\"at_least\":0},\"version\":1}],\"version\":1},\"instance\":0}],\"machines\":[\"lab\"],\"structs\":[{\"fields\":[{\"kind\":\"u8\",\"name\":\"n\"},{\"capacity\":2,\"counted\":\"n\",\"kind\":\"u16\",\"name\":\"v\"}],\"name\":\"inner\",\"version\":1}]}";

/// Returns the set of a description file.
pub(crate) fn set_of(alloc: Global, text: &str) -> Result<DescSet, Fail> {
    Ok(read_set(alloc, text.as_bytes()).ok().ok_or("a set")?)
}

/// Returns the shipped set `number`.
pub(crate) fn shipped(rt: &impl Abort, alloc: Global, number: u8) -> Result<DescSet, Fail> {
    assert!(rt; number <= 4);
    Ok(DescSet::shipped(alloc, number).ok().ok_or("memory")?)
}

/// A question to a set, with the answer.
#[derive(Clone, Copy)]
enum Asked {
    /// The number of the first device's cells.
    Count(u32),
    /// The cell of a device or of one of its subsections at a path.
    Cell(u32, Option<u32>, &'static [(u32, u32)], Option<u32>),
    /// The device of a name and an instance.
    Device(&'static [u8], u32, Option<u32>),
    /// The offsets of a device's numbers, and the number of its bytes.
    Stand(u32, &'static [u32], u32),
}

fn count(set: &DescSet) -> Option<u32> {
    if set.parts().devices.as_slice().is_empty() {
        return None;
    }
    Some(set.cells(0))
}

fn are_at(spots: &[Spot], offsets: &[u32]) -> bool {
    spots.len() == offsets.len()
        && spots
            .iter()
            .zip(offsets)
            .all(|(spot, offset)| spot.offset == *offset)
}

fn stand(set: &DescSet, device: u32, offsets: &[u32], bytes: u32) -> bool {
    (device as usize) < set.parts().devices.as_slice().len()
        && are_at(set.spots(device), offsets)
        && set.image_bytes(device) == bytes
}

fn answers(set: &DescSet, asked: Asked) -> bool {
    match asked {
        Asked::Count(cells) => count(set) == Some(cells),
        Asked::Cell(device, sub, path, cell) => set.cell(device, sub, path) == cell,
        Asked::Device(name, instance, device) => set.find(name, instance) == device,
        Asked::Stand(device, offsets, bytes) => stand(set, device, offsets, bytes),
    }
}

fn answers_all(set: &DescSet, rows: &[Asked]) -> bool {
    for asked in rows {
        if !answers(set, *asked) {
            return false;
        }
    }
    true
}

fn ask(rt: &impl Abort, set: DescSet, rows: &[Asked]) {
    assert!(rt; answers_all(&set, rows));
}

static OF_COUNTED: [Asked; 9] = [
    Asked::Count(3),
    Asked::Cell(0, None, &[(0, 0)], Some(0)),
    Asked::Cell(0, None, &[(1, 1)], Some(2)),
    Asked::Cell(0, None, &[(1, 2)], None),
    Asked::Cell(0, None, &[(0, 1)], None),
    Asked::Cell(0, None, &[(2, 0)], None),
    Asked::Cell(0, None, &[], None),
    Asked::Cell(0, Some(0), &[(0, 0)], None),
    Asked::Cell(1, None, &[(0, 0)], None),
];

#[test]
fn cells_lie_in_the_order_of_fields(rt: HostRuntime) -> Result<(), Fail> {
    ask(&rt, set_of(rt.alloc(), COUNTED)?, &OF_COUNTED);
    Ok(())
}

#[test]
fn constants_and_unused_bytes_have_no_cell(rt: HostRuntime) -> Result<(), Fail> {
    ask(&rt, set_of(rt.alloc(), FLAG)?, &[Asked::Count(1)]);
    Ok(())
}

static OF_NESTED: [Asked; 8] = [
    Asked::Cell(0, None, &[(1, 0), (0, 0)], Some(0)),
    Asked::Cell(0, None, &[(1, 2), (1, 1)], Some(8)),
    Asked::Cell(0, None, &[(1, 3), (0, 0)], None),
    Asked::Cell(0, None, &[(1, 2)], None),
    Asked::Cell(0, None, &[(1, 2), (1, 1), (0, 0)], None),
    Asked::Cell(0, None, &[(0, 0)], None),
    Asked::Cell(0, Some(0), &[(1, 0)], Some(10)),
    Asked::Cell(0, Some(1), &[(1, 0)], None),
];

#[test]
fn cells_of_structures_and_subsections_follow(rt: HostRuntime) -> Result<(), Fail> {
    ask(&rt, set_of(rt.alloc(), NESTED)?, &OF_NESTED);
    Ok(())
}

/// Shipped sets, with questions and answers.
static OF_SHIPPED: [(u8, &[Asked]); 5] = [
    (
        0,
        &[
            Asked::Device(b"timer", 0, Some(0)),
            Asked::Device(b"timer", 1, None),
            Asked::Device(b"time", 0, None),
            Asked::Count(1),
        ],
    ),
    (1, &[Asked::Device(b"i8259", 1, Some(2))]),
    (2, &[Asked::Device(b"i8254", 0, Some(3))]),
    (3, &[Asked::Device(b"serial", 0, Some(4))]),
    (
        4,
        &[
            Asked::Device(b"serial", 0, Some(4)),
            Asked::Device(b"i8259/ltim", 0, None),
        ],
    ),
];

#[test]
fn devices_are_found_by_name_and_instance(rt: HostRuntime) -> Result<(), Fail> {
    for (number, rows) in &OF_SHIPPED {
        ask(&rt, shipped(&rt, rt.alloc(), *number)?, rows);
    }
    Ok(())
}

/// The offsets of the serial port's numbers.
static SERIAL: [u32; 48] = [
    0, 2, 3, 4, 5, 6, 7, 8, 9, 10, 16, 24, 25, 26, 27, 28, 29, 30, 31, 32, 33, 34, 35, 36, 37, 38,
    39, 40, 41, 42, 43, 44, 45, 46, 47, 48, 49, 50, 51, 52, 53, 54, 55, 56, 57, 58, 59, 64,
];

#[test]
fn numbers_stand_at_multiples_of_their_width(rt: HostRuntime) -> Result<(), Fail> {
    let counted = [Asked::Stand(0, &[0, 2, 4], 6)];
    ask(&rt, set_of(rt.alloc(), COUNTED)?, &counted);
    let serial = [Asked::Stand(4, &SERIAL, 72)];
    ask(&rt, shipped(&rt, rt.alloc(), 3)?, &serial);
    Ok(())
}
