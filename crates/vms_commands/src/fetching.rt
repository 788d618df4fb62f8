// Sets that arguments name: they are fetched from the shelf and then parsed.
ghost use Rattle.std.specs.Prelude.{◌≡◌, ◌≤◌, true, IfOk, vec_len};
ghost use Rattle.vms_io.specs.Told.{stock};
ghost use Rattle.vms_desc.specs.Described.{described};
ghost use Rattle.vms_descfile.specs.Files.{file_said};
ghost use Rattle.vms_commands.specs.Asks.{set_asked};
ghost use Rattle.vms_load.specs.Lean.{loads};
ghost use Rattle.vms_commands.specs.Fetching.{fetched, fetched_set, is_on_shelf, is_text, said_set, set_in, word_set};
ghost use Rattle.vms_commands.specs.StepEndings.{Asks, AsksIf, FetchCause, HadCause, ReadCause, StepAs, WordCause, text_of};

use crate::ending::Ending;
use crate::notes::{not_there_line, too_large_line};
use crate::set_notes::{rule_line, shape_line, syntax_line};
use crate::set_words::{SetWord, ShippedSet};
use std::alloc::Global;
use vms_desc::DescSet;
use vms_descfile::{FileFault, read_set};
use vms_io::{FetchFault, NoMemory, Shelf};
use vms_load::LeanLoader;

/// The size limit of every file on the shelf except scripts, in bytes.
pub const LONGEST_FILE: u32 = 1_048_576;

/// A set as an argument names it, before its file is parsed.
#[derive(Drop)]
pub enum SetText<'a> {
    /// A shipped set. Nothing has been fetched for it.
    Shipped(ShippedSet),
    /// The text that the shelf holds under `name`.
    Text { name: &'a str, text: Vec<u8> },
}

/// Returns the text that `shelf` holds under `name`, of at most `limit` bytes.
///
/// `shelf` is searched and what it holds stays the same.
///
/// # Errors
///
/// - [`Ending::NotThere`]: the shelf holds nothing under `name`.
/// - [`Ending::TooLarge`]: the text has more than `limit` bytes.
/// - [`Ending::ShelfFault`]: the shelf reported a failure.
/// - [`Ending::NoMemory`]: out of memory.
pub fn fetch<H: Shelf>(
    alloc: Global,
    name: &str,
    limit: u32,
    shelf: &mut H,
) -> Result<Vec<u8>, Ending>
    ensures fetched { StepAs (λ text. text.items) (fetched limit (H.held shelf.old) name.now)
        result }
    ensures within { IfOk result (λ text. vec_len text ≤ limit) }
    ensures asks { Asks FetchCause (stock H.Shelf shelf.old) (stock H.Shelf shelf.new) result }
{
    match shelf.fetch(alloc, name, limit) {
        Ok(mut text) => {
            // The buffer grew by doubling.
            text.shrink_to_fit();
            Ok(text)
        }
        Err(FetchFault::NotThere) => Err(Ending::NotThere(not_there_line(alloc, name)?)),
        Err(FetchFault::TooLarge) => Err(Ending::TooLarge(too_large_line(alloc, name)?)),
        Err(FetchFault::Failed) => Err(Ending::ShelfFault),
        Err(FetchFault::NoMemory) => Err(Ending::NoMemory),
    }
}

/// Fetches the set that `word` names, without parsing it.
///
/// For a shipped set `shelf` isn't used.
///
/// # Errors
///
/// Those of [`fetch`] with the limit [`LONGEST_FILE`], and only for a name on the shelf.
pub fn fetch_set<'a, H: Shelf>(
    alloc: Global,
    word: SetWord<'a>,
    shelf: &mut H,
) -> Result<SetText<'a>, Ending>
    ensures fetched { StepAs text_of (fetched_set (H.held shelf.old) (set_asked word.entry))
        result }
    ensures text { IfOk result (λ text. is_text (text_of text)
        ≡ is_on_shelf (set_asked word.entry)) }
    ensures asks { AsksIf WordCause (is_on_shelf (set_asked word.entry))
        (stock H.Shelf shelf.old) (stock H.Shelf shelf.new) result }
{
    match word {
        SetWord::Shipped(set) => Ok(SetText::Shipped(set)),
        SetWord::OnShelf(name) => {
            let text = fetch(alloc, name, LONGEST_FILE, shelf)?;
            Ok(SetText::Text { name, text })
        }
    }
}

/// Returns the set of `text`, which [`fetch_set`] fetched.
///
/// # Errors
///
/// - [`Ending::BadText`]: the file isn't a set. The line names the first fault. Never for a shipped
///   set.
/// - [`Ending::NoMemory`]: out of memory.
pub fn read_fetched(alloc: Global, text: &SetText) -> Result<DescSet, Ending>
    ensures read { StepAs described (set_in (text_of text.now)) result }
    ensures ends { ReadCause (is_text (text_of text.now)) result }
{
    match text {
        SetText::Shipped(set) => Ok(set.kind.make_set(alloc, set.number)?),
        SetText::Text { name, text } => read_file(alloc, name, text),
    }
}

/// Returns the set that `word` names: it is fetched and then parsed.
///
/// For a shipped set `shelf` isn't used.
///
/// # Errors
///
/// Those of [`fetch_set`] and of [`read_fetched`].
pub fn set_of<H: Shelf>(alloc: Global, word: SetWord, shelf: &mut H) -> Result<DescSet, Ending>
    ensures had { StepAs described (word_set (H.held shelf.old) (set_asked word.entry)) result }
    ensures asks { AsksIf HadCause (is_on_shelf (set_asked word.entry))
        (stock H.Shelf shelf.old) (stock H.Shelf shelf.new) result }
{
    let text = fetch_set(alloc, word, shelf)?;
    read_fetched(alloc, &text)
}

/// Returns a loader for the set that `word` names. It reads one stream at a time.
///
/// For a shipped set `shelf` isn't used.
///
/// # Errors
///
/// Those of [`set_of`].
pub fn loader_of<H: Shelf>(
    alloc: Global,
    word: SetWord,
    shelf: &mut H,
) -> Result<LeanLoader, Ending>
    ensures had { StepAs loads (word_set (H.held shelf.old) (set_asked word.entry)) result }
    ensures asks { AsksIf HadCause (is_on_shelf (set_asked word.entry))
        (stock H.Shelf shelf.old) (stock H.Shelf shelf.new) result }
{
    let set = set_of(alloc, word, shelf)?;
    Ok(LeanLoader::new(alloc, set)?)
}

// Parses the description file `text`, whose name is `name`.
fn read_file(alloc: Global, name: &str, text: &[u8]) -> Result<DescSet, Ending>
    ensures read { StepAs described (said_set name.now (file_said text.now)) result }
    ensures ends { ReadCause true result }
{
    match read_set(alloc, text) {
        Ok(set) => Ok(set),
        Err(FileFault::Syntax) => Err(Ending::BadText(syntax_line(alloc, name)?)),
        Err(FileFault::Shape(path)) => Err(Ending::BadText(shape_line(
            alloc,
            name,
            path.as_str(),
        )?)),
        Err(FileFault::IllFormed { rule, place }) => {
            Err(Ending::BadText(rule_line(alloc, name, rule, place)?))
        }
        Err(FileFault::NoMemory) => Err(Ending::NoMemory),
    }
}
