// The command `pack`: the stream of a values text on the shelf.
ghost use Rattle.std.specs.Prelude.{◌≡◌, ◌≤◌, true, false, length, map, vec_len, IfOk, Some};
ghost use Rattle.std.specs.Option.{option_map};
ghost use Rattle.vms_io.specs.Told.{outlet, stock};
ghost use Rattle.vms_spec.specs.Lists.{at_option};
ghost use Rattle.vms_desc.specs.Described.{described};
ghost use Rattle.vms_image.specs.Typed.{state_of};
ghost use Rattle.vms_commands.specs.Asks.{set_asked};
ghost use Rattle.vms_commands.specs.Endings.{ending_of};
ghost use Rattle.vms_commands.specs.Fetching.{longest_file};
ghost use Rattle.vms_commands.specs.SetWords.{set_word};
ghost use Rattle.vms_commands.specs.StepEndings.{AsksIf, HadCause, StepAs, TextEnds, WrittenAs};
ghost use Rattle.vms_board_commands.specs.Runs.{RunsAside};
ghost use Rattle.vms_cli.specs.Causes.{WritesBy};
ghost use Rattle.vms_cli.specs.Commands.PackCommand.{described_stream, named_parts, packed, parts_of};
ghost use Rattle.vms_cli.specs.Commands.{Pack, asked, doing, with_file};
ghost use Rattle.vms_cli.specs.Needs.{CanPack};

use super::Command;
use crate::values_notes::values_line;
use std::alloc::Global;
use vms_commands::{Ending, LONGEST_FILE, SetWord, fetch, fetch_set, read_fetched, set_word};
use vms_desc::DescSet;
use vms_io::{Shelf, Sink};
use vms_script::is_shelf_name;
use vms_selfdesc::describe;
use vms_values::{Values, ValuesFault, read_values};
use vms_write::write_stream;

/// Returns the command `pack` of the set that a word names and a name on the shelf.
pub(crate) fn pack_of<'a>(set: &'a str, values: &'a str) -> Option<Command<'a>>
    ensures { option_map asked result ≡ with_file Pack (set_word set.now) values.now }
{
    match set_word(set) {
        Some(set) if is_shelf_name(values.as_bytes()) => Some(Command::Pack { set, values }),
        _ => None,
    }
}

/// Writes the stream of the values text `values` under the set `set` to `out`.
///
/// # Errors
///
/// An [`Ending`] if the set or the text can't be obtained, the text is refused, `out` fails, or
/// memory runs out.
pub(crate) fn pack<O: Sink, H: Shelf>(
    alloc: Global,
    set: SetWord,
    values: &str,
    out: &mut O,
    shelf: &mut H,
) -> Result<(), Ending>
    ensures { RunsAside (doing (Pack (set_asked set.entry) values.now))
        (outlet O.Sink out.old) (outlet O.Sink out.new)
        (stock H.Shelf shelf.old) (stock H.Shelf shelf.new) (ending_of result) }
{
    let parts = pack_parts(alloc, set, values, shelf)?;
    pack_text(alloc, &parts.set, &parts.values, out)
}

// A set and a values text.
#[derive(Drop)]
struct PackParts {
    set: DescSet,
    values: Vec<u8>,
}

// Returns what two arguments name. The set is parsed once both texts are fetched.
fn pack_parts<H: Shelf>(
    alloc: Global,
    set: SetWord,
    values: &str,
    shelf: &mut H,
) -> Result<PackParts, Ending>
    ensures had { StepAs parts_of (named_parts (H.held shelf.old) (set_asked set.entry) values.now)
        result }
    ensures within { IfOk result (λ parts. vec_len parts.values ≤ longest_file) }
    ensures asks { AsksIf HadCause true (stock H.Shelf shelf.old) (stock H.Shelf shelf.new)
        result }
{
    let text = fetch_set(alloc, set, shelf)?;
    let values = fetch(alloc, values, LONGEST_FILE, shelf)?;
    let set = read_fetched(alloc, &text)?;
    Ok(PackParts { set, values })
}

// Packs once the set is known.
fn pack_text<O: Sink>(alloc: Global, set: &DescSet, text: &[u8], out: &mut O) -> Result<(), Ending>
    requires { length text.now ≤ longest_file }
    ensures ends { TextEnds (packed (described set.now) text.now) (outlet O.Sink out.old)
        (outlet O.Sink out.new) (ending_of result) }
    ensures so { WritesBy true false (outlet O.Sink out.old) (outlet O.Sink out.new)
        (ending_of result) }
{
    match read_values(alloc, set, text) {
        Ok(values) => write(alloc, set, &values, out),
        Err(ValuesFault::Bad { line, reason }) => {
            Err(Ending::BadText(values_line(alloc, line, reason)?))
        }
        Err(ValuesFault::NoMemory) => Err(Ending::NoMemory),
    }
}

// Writes the stream. Its description is made before the first byte is written.
fn write<O: Sink>(alloc: Global, set: &DescSet, values: &Values, out: &mut O) -> Result<(), Ending>
    requires { CanPack set.now values.now }
    ensures written { let set = described set.now in
        let machine = at_option set.machines values.now.machine in
        WrittenAs (described_stream set machine (map state_of values.now.images.items))
        (outlet O.Sink out.old) (outlet O.Sink out.new) (ending_of result) }
    ensures so { WritesBy true false (outlet O.Sink out.old) (outlet O.Sink out.new)
        (ending_of result) }
{
    let text = describe(alloc, set, &values.images)?;
    write_stream(
        set,
        values.machine,
        &values.images,
        Some(text.as_str()),
        out,
    )?;
    Ok(())
}
