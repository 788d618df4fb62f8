// A whole stream, unit by unit and section by section.
ghost use Rattle.vms_io.specs.Told.{intake};
ghost use Rattle.vms_load.specs.Calls.{CanRead, CanReadBetween, CanReadSections, CanStage, ReadsBetween, ReadsHead, ReadsSections, ReadsStream, Stages, input};
ghost use Rattle.vms_load.specs.Reads.{MayTake};

use crate::LoadFault;
use crate::heads::open_section;
use crate::parts::{Section, read_section};
use crate::staged::{Staged, begin_section, configure, restart, take_end_mark};
use vms_desc::DescSet;
use vms_frames::{Between, Cursor, Step};
use vms_io::Source;
use vms_marks::Head;

/// Reads a stream from its first byte on, and returns its number of bytes.
///
/// # Errors
///
/// - [`LoadFault::Refused`]: the input isn't a stream of the set.
/// - [`LoadFault::ReadFault`]: the source failed.
pub(crate) fn stream<S: Source>(
    set: &DescSet,
    only: Option<u32>,
    staged: &mut Staged,
    source: &mut S,
) -> Result<u64, LoadFault>
    requires { CanRead set.now only staged.old }
    ensures { let from = intake S.Source source.old in let to = intake S.Source source.new in
        ReadsStream set.now only from to staged.new result }
{
    restart(set, staged);
    let mut cursor = Cursor::new();
    read_head(&mut cursor, source)?;
    sections(set, only, staged, &mut cursor, source)?;
    match cursor.trailer(source) {
        Ok(()) => Ok(cursor.at()),
        Err(fault) => Err(LoadFault::concerning(None, fault)),
    }
}

// Reads the stream head.
fn read_head<S: Source>(cursor: &mut Cursor, source: &mut S) -> Result<(), LoadFault>
    requires { MayTake 0 cursor.old }
    ensures { let from = input cursor.old (intake S.Source source.old) in
        let to = input cursor.new (intake S.Source source.new) in
        ReadsHead from to result }
{
    match cursor.stream_head(source) {
        Ok(()) => Ok(()),
        Err(fault) => Err(LoadFault::concerning(None, fault)),
    }
}

// Reads a configuration, if there is one, then the sections up to the end mark.
fn sections<S: Source>(
    set: &DescSet,
    only: Option<u32>,
    staged: &mut Staged,
    cursor: &mut Cursor,
    source: &mut S,
) -> Result<(), LoadFault>
    requires { CanReadSections set.now only staged.old cursor.old }
    ensures { let from = input cursor.old (intake S.Source source.old) in
        let to = input cursor.new (intake S.Source source.new) in
        ReadsSections set.now only staged.old staged.new from to result }
{
    let mut place = Some(Between::First);
    while let Some(between) = place {
        place = read_between(set, only, staged, between, cursor, source)?;
    }
    Ok(())
}

// Reads a unit between sections, and after a section head the whole section. Returns what may
// follow, or none after the end mark.
fn read_between<S: Source>(
    set: &DescSet,
    only: Option<u32>,
    staged: &mut Staged,
    between: Between,
    cursor: &mut Cursor,
    source: &mut S,
) -> Result<Option<Between>, LoadFault>
    requires { CanReadBetween set.now only between staged.old cursor.old }
    ensures { let from = input cursor.old (intake S.Source source.old) in
        let to = input cursor.new (intake S.Source source.new) in
        ReadsBetween set.now only between staged.old staged.new from to result }
{
    let at = cursor.at();
    match cursor.between(source, between) {
        Ok(Step::Configuration(name)) => configure(set, only, staged, &name, at),
        Ok(Step::Section(head)) => {
            stage_section(set, staged, &head, at, cursor, source)?;
            Ok(Some(Between::Later))
        }
        Ok(Step::End) => take_end_mark(staged, at),
        Err(fault) => Err(LoadFault::concerning(None, fault)),
    }
}

// Reads the section whose head was at offset `at`.
fn stage_section<S: Source>(
    set: &DescSet,
    staged: &mut Staged,
    head: &Head,
    at: u64,
    cursor: &mut Cursor,
    source: &mut S,
) -> Result<(), LoadFault>
    requires { CanStage set.now staged.old cursor.old }
    ensures { let from = input cursor.old (intake S.Source source.old) in
        let to = input cursor.new (intake S.Source source.new) in
        Stages set.now head.now at staged.old staged.new from to result }
{
    let device = open_section(set, &staged.came, head, at)?;
    begin_section(staged, device, head.version);
    let mut section = Section {
        device,
        id: head.id,
        tail: staged.tail,
    };
    let image = &mut staged.images[device as usize];
    read_section(set, &mut section, image, cursor, source)?;
    staged.tail = section.tail;
    Ok(())
}
