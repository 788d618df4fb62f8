// The reader of scripts.
ghost use Rattle.std.specs.Prelude.{◌≡◌, ◌<◌, ◌++◌, ◌∷◌, [], None, false, codes, length, map, IfErr, OnOk};
ghost use Rattle.std.specs.Str.{bytes_eq};
ghost use Rattle.vms_script.specs.Lines.{line_of_words, line_read};
ghost use Rattle.vms_script.specs.Script.{script_read};
ghost use Rattle.vms_script.specs.Views.{event_lines, IsPut, IsRefusal, IsUnread, ReadsAs, ReadsLines};

use crate::event::read_event;
use crate::kept::{Kept, Unkept};
use crate::line::{Line, ScriptFault, ScriptReason};
use crate::split::split_word;
use dev_board::Event;
use std::alloc::Global;
use vms_words::next_line;

/// Reads the script `text` once and returns its lines.
///
/// If `play` is the level of a board, `save` and `restore` are lines as well.
///
/// # Requires
///
/// `text` has fewer than 2^32 bytes.
///
/// # Errors
///
/// - [`ScriptFault::Bad`]: the first bad line, counted from 1, with its first reason.
/// - [`ScriptFault::NoMemory`]: out of memory.
pub fn read_script(alloc: Global, text: &[u8], play: Option<u8>) -> Result<Vec<Line>, ScriptFault>
    requires { length text.now < 4294967296 }
    ensures { ReadsAs (λ lines. lines.items) (script_read play text.now) result }
{
    read_lines(alloc, text, play)
}

/// Reads the script `text` once, in which `save` and `restore` aren't lines, and returns its
/// events, one for each line.
///
/// # Requires
///
/// `text` has fewer than 2^32 bytes.
///
/// # Errors
///
/// The errors of [`read_script`].
pub fn read_events(alloc: Global, text: &[u8]) -> Result<Vec<Event>, ScriptFault>
    requires { length text.now < 4294967296 }
    ensures { ReadsLines (λ events. event_lines events.items) (script_read None text.now) result }
{
    read_lines(alloc, text, None)
}

// Reads a script and keeps something of each line.
fn read_lines<L: Kept>(alloc: Global, text: &[u8], play: Option<u8>) -> Result<Vec<L>, ScriptFault>
    requires small { length text.now < 4294967296 }
    requires keeps { L.keeps play }
    ensures { ReadsLines (λ lines. map L.said lines.items) (script_read play text.now) result }
{
    let mut lines = Vec::new(alloc);
    let mut rest = text;
    let mut number = 1;
    while let Some(next) = next_line(rest) {
        match put_line(alloc, &mut lines, number, next.text, play) {
            Ok(()) => {}
            Err(fault) => return Err(fault),
        }
        rest = next.after;
        number += 1;
    }
    if rest.is_empty() {
        return Ok(lines);
    }
    match put_line(alloc, &mut lines, number, rest, play) {
        Ok(()) => Err(bad(number, ScriptReason::NoEnd)),
        Err(fault) => Err(fault),
    }
}

// Appends what is kept of a line without its line feed, or returns why the line is bad.
#[inline(always)]
fn put_line<L: Kept>(
    alloc: Global,
    lines: &mut Vec<L>,
    number: u32,
    text: &[u8],
    play: Option<u8>,
) -> Result<(), ScriptFault>
    requires keeps { L.keeps play }
    ensures put { let read = line_read play text.now in
        OnOk result (IsPut read (map L.said lines.old.items) (map L.said lines.new.items)) }
    ensures refused { IfErr result (IsRefusal (line_read play text.now) number) }
    ensures long { OnOk result (0 < length text.now) }
{
    let put = if is_ack(text) {
        push_line(lines, L::of_event(Event::Ack))
    } else {
        put_other(alloc, lines, play, text)
    };
    match put {
        Ok(()) => Ok(()),
        Err(Unkept::Refused(reason)) => Err(bad(number, reason)),
        Err(Unkept::NoMemory) => Err(ScriptFault::NoMemory),
    }
}

// Checks whether a line is `ack`, the only one of a single word.
fn is_ack(text: &[u8]) -> bool
    ensures { result ≡ bytes_eq text.now (codes "ack") }
{
    match text {
        [b'a', b'c', b'k'] => true,
        _ => false,
    }
}

// Appends what is kept of a line that isn't `ack`.
#[inline(always)]
fn put_other<L: Kept>(
    alloc: Global,
    lines: &mut Vec<L>,
    play: Option<u8>,
    text: &[u8],
) -> Result<(), Unkept>
    requires keeps { L.keeps play }
    requires other { bytes_eq text.now (codes "ack") ≡ false }
    ensures put { let read = line_read play text.now in
        OnOk result (IsPut read (map L.said lines.old.items) (map L.said lines.new.items)) }
    ensures refused { IfErr result (IsUnread (line_read play text.now)) }
    ensures long { OnOk result (0 < length text.now) }
{
    let split = split_word(text);
    match split.rest {
        Some(rest) => put_words(alloc, lines, play, split.word, rest),
        None => Err(Unkept::Refused(ScriptReason::Form)),
    }
}

// Appends what is kept of a line with a first word and a rest.
fn put_words<L: Kept>(
    alloc: Global,
    lines: &mut Vec<L>,
    play: Option<u8>,
    word: &[u8],
    rest: &[u8],
) -> Result<(), Unkept>
    requires keeps { L.keeps play }
    ensures put { let read = line_of_words play word.now rest.now in
        OnOk result (IsPut read (map L.said lines.old.items) (map L.said lines.new.items)) }
    ensures refused { IfErr result (IsUnread (line_of_words play word.now rest.now)) }
{
    match read_event(word, rest) {
        Some(Ok(event)) => push_line(lines, L::of_event(event)),
        Some(Err(reason)) => Err(Unkept::Refused(reason)),
        None => match L::of_session(alloc, play, word, rest) {
            Ok(line) => push_line(lines, line),
            Err(unkept) => Err(unkept),
        },
    }
}

// Appends a line. It fails only if memory runs out.
fn push_line<L: Kept>(lines: &mut Vec<L>, line: L) -> Result<(), Unkept>
    ensures put { let all = map L.said lines.old.items ++ L.said line ∷ [] in
        OnOk result (map L.said lines.new.items ≡ all) }
    ensures wanting { IfErr result (λ unkept. unkept ≡ Unkept.NoMemory) }
{
    match lines.push(line) {
        Ok(()) => Ok(()),
        Err(_) => Err(Unkept::NoMemory),
    }
}

// Returns the fault at a line.
fn bad(line: u32, reason: ScriptReason) -> ScriptFault
    ensures { result ≡ ScriptFault.Bad line reason }
{
    ScriptFault::Bad { line, reason }
}
