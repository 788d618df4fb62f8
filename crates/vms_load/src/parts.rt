// The parts of a section: the device's own fields, and subsections.
ghost use Rattle.std.specs.Prelude.{◌≡◌};
ghost use Rattle.vms_io.specs.Told.{intake};
ghost use Rattle.vms_load.specs.Calls.{CanReadAfter, CanReadFields, CanReadSection, ReadsAfter, ReadsFields, ReadsSection, input};
ghost use Rattle.vms_load.specs.Parts.{part_of};

use crate::LoadFault;
use crate::body::read_part;
use crate::fault::refused;
use crate::heads::open_sub;
use vms_desc::{DescSet, Part};
use vms_frames::{After, Cursor, Tail};
use vms_image::Image;
use vms_io::Source;
use vms_walk::PartAt;

/// The section that is read: its device, its id, and whether the stream's sections have footers.
#[derive(Clone, Copy)]
pub(crate) struct Section {
    pub(crate) device: u32,
    pub(crate) id: u32,
    pub(crate) tail: Tail,
}

/// A part of a section whose fields come next, at a version. `sub` is the subsection, or none for
/// the device's own fields.
#[derive(Clone, Copy)]
pub(crate) struct Open {
    pub(crate) sub: Option<u32>,
    pub(crate) version: u32,
}

// Returns the part of device `device`: its own fields, or those of its subsection `sub`.
fn part_of(device: u32, sub: Option<u32>) -> Part
    ensures { result ≡ part_of device sub }
{
    match sub {
        None => Part::Device(device),
        Some(sub) => Part::Sub(device, sub),
    }
}

// Reads the fields of `part` into `image`.
fn read_fields<S: Source>(
    set: &DescSet,
    section: Section,
    part: Open,
    image: &mut Image,
    cursor: &mut Cursor,
    source: &mut S,
) -> Result<(), LoadFault>
    requires { CanReadFields set.now section part image.old cursor.old }
    ensures { let from = input cursor.old (intake S.Source source.old) in
        let to = input cursor.new (intake S.Source source.new) in
        ReadsFields set.now section part image.old image.new from to result }
{
    let number = part_of(section.device, part.sub);
    let base = set.first_cell(number);
    let spot = PartAt {
        part: number,
        version: part.version,
        base,
    };
    match read_part(set, spot, image, cursor, source) {
        Ok(()) => Ok(()),
        Err(fault) => Err(LoadFault::concerning(Some(section.device), fault)),
    }
}

// Reads what follows the fields of a part. Returns the subsection that comes next, or none at the
// end of the section.
fn read_after_fields<S: Source>(
    set: &DescSet,
    section: &mut Section,
    image: &mut Image,
    cursor: &mut Cursor,
    source: &mut S,
) -> Result<Option<Open>, LoadFault>
    requires { CanReadAfter set.now section.old image.old cursor.old }
    ensures { let from = input cursor.old (intake S.Source source.old) in
        let to = input cursor.new (intake S.Source source.new) in
        ReadsAfter set.now section.old section.new image.old image.new from to result }
{
    let at = cursor.at();
    match cursor.after_fields(source, section.id, section.tail) {
        Ok(After::Done) => {
            section.tail = Tail::Footed;
            Ok(None)
        }
        Ok(After::Next) => {
            section.tail = Tail::Bare;
            Ok(None)
        }
        Ok(After::Sub { name, version }) => {
            let sub = match open_sub(set.device(section.device), image, &name, version) {
                Ok(sub) => sub,
                Err(reason) => return Err(refused(Some(section.device), at, reason)),
            };
            image.mark(sub, Some(version));
            Ok(Some(Open {
                sub: Some(sub),
                version,
            }))
        }
        Err(fault) => Err(LoadFault::concerning(Some(section.device), fault)),
    }
}

/// Reads a section after its head, up to its end, into `image`.
///
/// # Errors
///
/// - [`LoadFault::Refused`]: a unit is invalid, the input ends, or a validation fails.
/// - [`LoadFault::ReadFault`]: the source failed.
pub(crate) fn read_section<S: Source>(
    set: &DescSet,
    section: &mut Section,
    image: &mut Image,
    cursor: &mut Cursor,
    source: &mut S,
) -> Result<(), LoadFault>
    requires { CanReadSection set.now section.old image.old cursor.old }
    ensures { let from = input cursor.old (intake S.Source source.old) in
        let to = input cursor.new (intake S.Source source.new) in
        ReadsSection set.now section.old section.new image.old image.new from to result }
{
    let mut next = Some(Open {
        sub: None,
        version: image.version(),
    });
    while let Some(part) = next {
        read_fields(set, *section, part, image, cursor, source)?;
        next = read_after_fields(set, section, image, cursor, source)?;
    }
    Ok(())
}
