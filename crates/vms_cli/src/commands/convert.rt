// The command `convert`: the stream of the same state under another set, or what would be lost.
ghost use Rattle.std.specs.Prelude.{◌≡◌, ◌<◌, length, Some};
ghost use Rattle.std.specs.Option.{option_map};
ghost use Rattle.vms_io.specs.Supplies.{store};
ghost use Rattle.vms_io.specs.Told.{intake, outlet};
ghost use Rattle.vms_desc.specs.Described.{described};
ghost use Rattle.vms_commands.specs.Asks.{set_asked};
ghost use Rattle.vms_commands.specs.Endings.{ending_of};
ghost use Rattle.vms_commands.specs.SetWords.{set_word};
ghost use Rattle.vms_board_commands.specs.Runs.{Runs, frame};
ghost use Rattle.vms_cli.specs.Commands.ConvertCommand.{ConvertsStream, EndsLike, line_of, convertible, lost_line, newest};
ghost use Rattle.vms_cli.specs.Commands.{Convert, asked, doing};
ghost use Rattle.vms_cli.specs.Needs.{CanPutPath, CanTell, CanTellLost, HasPath};

use super::Command;
use arrayvec::ArrayVec;
use std::alloc::Global;
use vms_commands::{
    BoardKind, Ending, NoteLine, SetWord, append_section, mismatch_line, refused_line, set_of,
    set_word,
};
use vms_convert::{ConvertFault, convert_with, newest_loader};
use vms_desc::DescSet;
use vms_io::{MemSink, Shelf, Sink, Source};
use vms_values::print_path;
use vms_words::append;

/// A bound above the length of each path of a cell in the newest set, in bytes.
const PATH_ROOM: u32 = 64;

/// Returns the command `convert` of the set that a word names, if `convert` takes it.
pub(crate) fn convert_of(set: &str) -> Option<Command<'_>>
    ensures { option_map asked result ≡ option_map Convert (convertible (set_word set.now)) }
{
    match set_word(set) {
        Some(SetWord::Shipped(set)) if set.kind != BoardKind::Isa => None,
        Some(set) => Some(Command::Convert { set }),
        None => None,
    }
}

/// Writes the state of the stream in `input` to `out`, as a stream of the set `set`.
///
/// # Errors
///
/// An [`Ending`] if the set can't be obtained or isn't compatible with the newest one, the stream
/// is refused or something would be lost, `input` or `out` fails, or memory runs out.
pub(crate) fn convert<I: Source, O: Sink, H: Shelf>(
    alloc: Global,
    set: SetWord,
    input: &mut I,
    out: &mut O,
    shelf: &mut H,
) -> Result<(), Ending>
    ensures { Runs (doing (Convert (set_asked set.entry)))
        (frame I.Source O.Sink H.Shelf input.old out.old shelf.old)
        (frame I.Source O.Sink H.Shelf input.new out.new shelf.new) (ending_of result) }
{
    let to = set_of(alloc, set, shelf)?;
    convert_to(alloc, &to, input, out)
}

// Converts once the set is known. All memory is allocated before the input is read, that for a line too.
fn convert_to<I: Source, O: Sink>(
    alloc: Global,
    to: &DescSet,
    input: &mut I,
    out: &mut O,
) -> Result<(), Ending>
    ensures { ConvertsStream (described to.now) (intake I.Source input.old)
        (intake I.Source input.new) (outlet O.Sink out.old) (outlet O.Sink out.new)
        (ending_of result) }
{
    let path = MemSink::new(alloc, PATH_ROOM, Vec::new(alloc))?;
    let mut loader = newest_loader(alloc)?;
    let converted = convert_with(alloc, input, to, &mut loader, out);
    with_line(alloc, loader.set(), path, converted)
}

// Returns the result of the conversion, with the line of its fault.
fn with_line(
    alloc: Global,
    set: &DescSet,
    path: MemSink,
    converted: Result<(), ConvertFault>,
) -> Result<(), Ending>
    requires { CanTell set.now (store path) converted }
    ensures { EndsLike converted (ending_of result) }
{
    match converted {
        Ok(()) => Ok(()),
        Err(ConvertFault::NotCompatible(mismatch)) => {
            Err(Ending::NotCompatible(mismatch_line(alloc, mismatch)?))
        }
        Err(ConvertFault::Refused(refusal)) => Err(Ending::Refused(refused_line(set, &refusal))),
        Err(ConvertFault::WouldLose { section, cell }) => {
            Err(Ending::WouldLose(lost_line(set, path, section, cell)))
        }
        Err(ConvertFault::ReadFault) => Err(Ending::ReadFault),
        Err(ConvertFault::WriteFault) => Err(Ending::WriteFault),
        Err(ConvertFault::NoMemory) => Err(Ending::NoMemory),
    }
}

// Returns the line of what would be lost: a cell of the newest set, a device that has none, or the machine.
fn lost_line(set: &DescSet, mut path: MemSink, section: Option<u32>, cell: Option<u32>) -> NoteLine
    requires { CanTellLost set.now (store path) section cell }
    ensures { result.items ≡ lost_line newest section cell }
{
    match (section, cell) {
        (Some(device), Some(cell)) => {
            put_path(set, device, cell, &mut path);
            line_of(set, section, path.bytes())
        }
        (Some(_), None) => line_of(set, section, b"-"),
        (None, _) => line_of(set, section, b"machine"),
    }
}

// Writes the path of a cell into memory that has room for it.
fn put_path(set: &DescSet, device: u32, cell: u32, path: &mut MemSink)
    requires { CanPutPath set.now device cell (store path.old) }
    ensures { HasPath set.now device cell (store path.new) }
{
    match print_path(set, device, cell, path) {
        Ok(()) => {}
        // No call is to fail, and the room is larger than the path.
        Err(_) => unreachable!(),
    }
}

// Returns the line that names what would be lost, in a device or in none.
fn line_of(set: &DescSet, section: Option<u32>, what: &[u8]) -> NoteLine
    requires { length what.now < 64 }
    ensures { result.items ≡ line_of (described set.now) section what.now }
{
    let mut line = ArrayVec::new();
    append(&mut line, b"would lose ");
    append_section(&mut line, set, section);
    append(&mut line, b" ");
    append(&mut line, what);
    append(&mut line, b"\n");
    line
}
