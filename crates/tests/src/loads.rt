// Images and their bytes, and streams that one loader reads one after the other.
use crate::sets::{COUNTED, set_of, shipped};
use std::alloc::Global;
use std::process::Abort;
use std::test::Fail;
use vms_desc::DescSet;
use vms_image::Image;
use vms_io::{MemSink, MemSource};
use vms_load::{LoadFault, Loader, Reason};
use vms_write::{are_ready, write_stream};

/// A number, and an array of a later version that it counts.
const LATER: &str =
    "{\"devices\":[{\"desc\":{\"fields\":[{\"kind\":\"u8\",\"name\":\"n\"},{\"capacity\":2,\"counted\":\"n\",\"kind\":\"u16\",\"name\":\"v\",\"since\":2}],\"minimum\":1,\"name\":\"box\",\"version\":2},\"instance\":0}],\"machines\":[\"lab\"],\"structs\":[]}";

fn image(rt: &impl Abort, alloc: Global, set: &DescSet) -> Result<Image, Fail> {
    assert!(rt; !set.parts().devices.as_slice().is_empty());
    Ok(Image::new(alloc, set, 0).ok().ok_or("memory")?)
}

/// Sets a cell to a number that fits it.
fn put(rt: &impl Abort, image: &mut Image, cell: u32, number: i128) {
    assert!(rt; cell < image.len() && image.fits(cell, number));
    image.set(cell, number);
}

fn put_all(rt: &impl Abort, image: &mut Image, numbers: &[i128; 3]) {
    for (cell, number) in numbers.iter().enumerate() {
        put(rt, image, cell as u32, *number);
    }
}

/// Checks whether an image with these numbers has these bytes.
fn has_bytes(
    rt: &(impl Abort + AllocGlobal),
    set: &DescSet,
    numbers: &[i128; 3],
    bytes: &[u8; 6],
) -> Result<bool, Fail> {
    let mut image = image(rt, rt.alloc(), set)?;
    put_all(rt, &mut image, numbers);
    Ok(image.raw() == bytes.as_slice())
}

static IN_BYTES: [([i128; 3], [u8; 6]); 2] = [
    ([2, 1, 65_535], [2, 0, 0, 1, 255, 255]),
    ([0, 0, 0], [0; 6]),
];

fn all_have_bytes(rt: &(impl Abort + AllocGlobal), set: &DescSet) -> Result<bool, Fail> {
    for (numbers, bytes) in &IN_BYTES {
        if !has_bytes(rt, set, numbers, bytes)? {
            return Ok(false);
        }
    }
    Ok(true)
}

fn images_have_bytes(rt: &(impl Abort + AllocGlobal), set: DescSet) -> Result<bool, Fail> {
    all_have_bytes(rt, &set)
}

#[test]
fn an_image_has_its_numbers_in_its_bytes(rt: HostRuntime) -> Result<(), Fail> {
    assert!(rt; images_have_bytes(&rt, set_of(rt.alloc(), COUNTED)?)?);
    Ok(())
}

/// Returns the stream of `images` with the description `text`, if they are ready.
fn written(alloc: Global, set: &DescSet, images: &[Image], text: Option<&str>) -> Option<Vec<u8>> {
    if !are_ready(set, images) || text.is_some_and(|text| text.len() > 16) {
        return None;
    }
    let mut sink = MemSink::new(alloc, 1000, Vec::new(alloc)).ok()?;
    write_stream(set, None, images, text, &mut sink).ok()?;
    sink.bytes().to_vec(alloc).ok()
}

fn defaults(rt: &(impl Abort + AllocGlobal), set: &DescSet) -> Result<Vec<Image>, Fail> {
    let mut images = Vec::new(rt.alloc());
    images.push(image(rt, rt.alloc(), set)?)?;
    Ok(images)
}

/// Returns the stream of a device at its defaults with the description `text`.
fn described(
    rt: &(impl Abort + AllocGlobal),
    set: &DescSet,
    text: &str,
) -> Result<Option<Vec<u8>>, Fail> {
    let images = defaults(rt, set)?;
    Ok(written(rt.alloc(), set, &images, Some(text)))
}

fn defaults_described(
    rt: &(impl Abort + AllocGlobal),
    set: DescSet,
    text: &str,
) -> Result<Option<Vec<u8>>, Fail> {
    described(rt, &set, text)
}

#[test]
fn a_description_has_a_text_of_ones_own(rt: HostRuntime) -> Result<(), Fail> {
    let wanted =
        b"QEVM\0\0\0\x03\x04\0\0\0\0\x05timer\0\0\0\0\0\0\0\x01\0\0\0\0\0\0\0\0\x7e\0\0\0\0\0\x06\0\0\0\x02{}";
    let stream = defaults_described(&rt, shipped(&rt, rt.alloc(), 0)?, "{}")?;
    assert!(rt; stream.as_deref() == Some(wanted.as_slice()));
    Ok(())
}

/// The result of a load: the stream is accepted, or refused at an offset, in a device, for a
/// reason; or a read fails.
#[derive(Clone, Copy, PartialEq, Eq)]
enum Comes {
    Taken,
    Refused(u64, Option<u32>, Reason),
    ReadFault,
}

/// Returns a source of single bytes. If `fails`, its 20th read fails.
fn source_of(alloc: Global, bytes: &[u8], fails: bool) -> Result<MemSource, Fail> {
    let mut pieces = Vec::new(alloc);
    for _ in bytes {
        pieces.push(1)?;
    }
    let mut failing = Vec::new(alloc);
    if fails {
        failing.push(20)?;
    }
    Ok(MemSource::new(bytes.to_vec(alloc)?, pieces, failing))
}

fn end_of_load(loader: &mut Loader, source: &mut MemSource) -> Comes {
    match loader.load(source, None) {
        Ok(_) => Comes::Taken,
        Err(LoadFault::Refused(refusal)) => {
            Comes::Refused(refusal.at, refusal.section, refusal.reason)
        }
        Err(LoadFault::ReadFault) => Comes::ReadFault,
    }
}

/// Loads single bytes. If the load is to fail, the 20th read does.
fn load_of(alloc: Global, loader: &mut Loader, bytes: &[u8], wanted: Comes) -> Result<Comes, Fail> {
    let mut source = source_of(alloc, bytes, wanted == Comes::ReadFault)?;
    Ok(end_of_load(loader, &mut source))
}

/// The number of bytes that were read last, the first device's numbers, and the stream of the kept
/// images, if they are ready.
type Kept<'a> = (u64, &'a [i128], Option<&'a [u8]>);

fn has_number(image: &Image, cell: usize, number: i128) -> bool {
    match u32::try_from(cell) {
        Ok(cell) => cell < image.len() && image.get(cell) == number,
        Err(_) => false,
    }
}

fn has_numbers(image: &Image, numbers: &[i128]) -> bool {
    for (cell, number) in numbers.iter().enumerate() {
        if !has_number(image, cell, *number) {
            return false;
        }
    }
    true
}

fn first_has(images: &[Image], numbers: &[i128]) -> bool {
    match images {
        [image, ..] => has_numbers(image, numbers),
        [] => false,
    }
}

fn keeps(rt: &(impl Abort + AllocGlobal), loader: &Loader, kept: Kept) {
    let (taken, numbers, stream) = kept;
    assert!(rt; loader.taken() == taken);
    assert!(rt; first_has(loader.images(), numbers));
    let written = written(rt.alloc(), loader.set(), loader.images(), None);
    assert!(rt; written.as_deref() == stream);
}

fn load_each(
    rt: &(impl Abort + AllocGlobal),
    loader: &mut Loader,
    streams: &[(&[u8], Comes)],
) -> Result<(), Fail> {
    for (bytes, wanted) in streams {
        let came = load_of(rt.alloc(), loader, bytes, *wanted)?;
        assert!(rt; came == *wanted);
    }
    Ok(())
}

/// Loads streams one after the other, and then compares what is kept.
fn load_all(
    rt: &(impl Abort + AllocGlobal),
    set: DescSet,
    streams: &[(&[u8], Comes)],
    kept: Kept,
) -> Result<(), Fail> {
    let mut loader = Loader::new(rt.alloc(), set).ok().ok_or("memory")?;
    load_each(rt, &mut loader, streams)?;
    keeps(rt, &loader, kept);
    Ok(())
}

const TWO: &[u8] =
    b"QEVM\0\0\0\x03\x04\0\0\0\0\x03box\0\0\0\0\0\0\0\x01\x02\0\x01\xff\xff\x7e\0\0\0\0\0";

const NONE: &[u8] = b"QEVM\0\0\0\x03\x04\0\0\0\0\x03box\0\0\0\0\0\0\0\x01\0\x7e\0\0\0\0\0";

/// One element, and a footer of another section.
const BAD_FOOTER: &[u8] =
    b"QEVM\0\0\0\x03\x04\0\0\0\0\x03box\0\0\0\0\0\0\0\x01\x01\0\x07\x7e\0\0\0\x01\0";

#[test]
fn a_refused_stream_leaves_the_last_one(rt: HostRuntime) -> Result<(), Fail> {
    let refused = Comes::Refused(28, Some(0), Reason::BadFooter);
    let all = [
        (TWO, Comes::Taken),
        (BAD_FOOTER, refused),
        (NONE, Comes::Taken),
    ];
    let two: Kept = (36, &[2, 1, 65_535], Some(TWO));
    load_all(&rt, set_of(rt.alloc(), COUNTED)?, &all[..1], two)?;
    load_all(&rt, set_of(rt.alloc(), COUNTED)?, &all[..2], two)?;
    load_all(
        &rt,
        set_of(rt.alloc(), COUNTED)?,
        &all,
        (32, &[0, 0, 0], Some(NONE)),
    )
}

#[test]
fn what_an_older_stream_leaves_may_not_be_ready(rt: HostRuntime) -> Result<(), Fail> {
    let older: &[u8] = b"QEVM\0\0\0\x03\x04\0\0\0\0\x03box\0\0\0\0\0\0\0\x01\x02\x7e\0\0\0\0\0";
    let streams = [(older, Comes::Taken)];
    load_all(
        &rt,
        set_of(rt.alloc(), LATER)?,
        &streams,
        (32, &[2, 0, 0], None),
    )
}

/// A timer's stream that names its machine and has a section with its own number.
const NAMED: &[u8] =
    b"QEVM\0\0\0\x03\x07\0\0\0\x05isa-0\x04\0\0\0\x09\x05timer\0\0\0\0\0\0\0\x01\x7e\0\0\0\0\0\0\0\x7e\0\0\0\x09\0";

/// The stream that is written for it.
const KEPT: &[u8] =
    b"QEVM\0\0\0\x03\x04\0\0\0\0\x05timer\0\0\0\0\0\0\0\x01\x7e\0\0\0\0\0\0\0\x7e\0\0\0\0\0";

const TIMER: &[u8] =
    b"QEVM\0\0\0\x03\x04\0\0\0\0\x05timer\0\0\0\0\0\0\0\x01\0\0\0\0\0\0\0\0\x7e\0\0\0\0\0";

/// The same without its end.
const CUT: &[u8] =
    b"QEVM\0\0\0\x03\x04\0\0\0\0\x05timer\0\0\0\0\0\0\0\x01\0\0\0\0\0\0\0\0\x7e\0\0\0\0";

#[test]
fn a_fault_leaves_the_last_one(rt: HostRuntime) -> Result<(), Fail> {
    let streams = [
        (NAMED, Comes::Taken),
        (CUT, Comes::Refused(40, None, Reason::Truncated)),
        (TIMER, Comes::ReadFault),
    ];
    let set = shipped(&rt, rt.alloc(), 0)?;
    load_all(
        &rt,
        set,
        &streams,
        (51, &[9_079_256_848_778_919_936], Some(KEPT)),
    )
}
