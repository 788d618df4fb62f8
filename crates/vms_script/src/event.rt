// Lines that are events.
ghost use Rattle.std.specs.Prelude.{◌≡◌, ◌<◌, ℕ, Option};
ghost use Rattle.std.specs.Bool.{OnTrue};
ghost use Rattle.dev_board.specs.Wires.{is_wire as is_wire_of};
ghost use Rattle.vms_script.specs.Lines.{in_line, byte_line, wait_line, out_line, wire_line, line_of_words, play_line};
ghost use Rattle.vms_script.specs.Views.{event_view, event_or};
ghost use Rattle.vms_script.specs.Words.{level_spelled, first_word};

use crate::hex::{byte_of, port_of};
use crate::line::ScriptReason;
use crate::number::{LONGEST_WAIT, number_of};
use crate::split::split_word;
use dev_board::{Event, is_wire};

/// Returns the event of a line with the first word `word` and the rest `rest`, or `None` if no
/// event begins with `word`.
#[inline(always)]
pub(crate) fn read_event(word: &[u8], rest: &[u8]) -> Option<Result<Event, ScriptReason>>
    ensures { (play : Option ℕ) → line_of_words play word.now rest.now
        ≡ event_or (play_line play word.now rest.now) result }
{
    match word {
        [b'i', b'n'] => Some(read_in(rest)),
        [b'o', b'u', b't'] => Some(read_out(rest)),
        [b'b', b'y', b't', b'e'] => Some(read_byte(rest)),
        [b'w', b'a', b'i', b't'] => Some(read_wait(rest)),
        [b'w', b'i', b'r', b'e'] => Some(read_wire(rest)),
        _ => None,
    }
}

// Parses the rest of `in PPPP`.
fn read_in(port: &[u8]) -> Result<Event, ScriptReason>
    ensures { event_view result ≡ in_line port.now }
{
    let port = port_of(port).ok_or(ScriptReason::Form)?;
    Ok(Event::Read { port })
}

// Parses the rest of `out PPPP VV`.
fn read_out(words: &[u8]) -> Result<Event, ScriptReason>
    ensures { event_view result ≡ out_line (first_word words.now) }
{
    let split = split_word(words);
    let port = port_of(split.word).ok_or(ScriptReason::Form)?;
    let value = split.rest.ok_or(ScriptReason::Form)?;
    let value = byte_of(value).ok_or(ScriptReason::Form)?;
    Ok(Event::Write { port, value })
}

// Parses the rest of `byte VV`.
fn read_byte(value: &[u8]) -> Result<Event, ScriptReason>
    ensures { event_view result ≡ byte_line value.now }
{
    let value = byte_of(value).ok_or(ScriptReason::Form)?;
    Ok(Event::Byte { value })
}

// Parses the rest of `wait N`, with N at most `LONGEST_WAIT`.
fn read_wait(number: &[u8]) -> Result<Event, ScriptReason>
    ensures { event_view result ≡ wait_line number.now }
{
    match number_of(number) {
        Ok(ns) => {
            if ns <= LONGEST_WAIT {
                Ok(Event::Wait { ns })
            } else {
                Err(ScriptReason::Range)
            }
        }
        Err(reason) => Err(reason),
    }
}

// Parses the rest of `wire N 0` or `wire N 1`, with N one of 1, 3, 5, 6, 7 and 8 to 15.
fn read_wire(words: &[u8]) -> Result<Event, ScriptReason>
    ensures { event_view result ≡ wire_line (first_word words.now) }
{
    let split = split_word(words);
    let Some(level) = split.rest else {
        return Err(ScriptReason::Form);
    };
    let Some(up) = level_of(level) else {
        return Err(ScriptReason::Form);
    };
    match number_of(split.word) {
        Ok(input) => {
            if names_wire(input) {
                let input = input as u8;
                Ok(Event::Wire { input, up })
            } else {
                Err(ScriptReason::Range)
            }
        }
        Err(reason) => Err(reason),
    }
}

// Returns the level of a wire.
fn level_of(text: &[u8]) -> Option<bool>
    ensures { result ≡ level_spelled text.now }
{
    match text {
        [b'0'] => Some(false),
        [b'1'] => Some(true),
        _ => None,
    }
}

// Checks whether a number is that of a wire.
fn names_wire(number: u64) -> bool
    ensures named { result ≡ is_wire_of number }
    ensures small { OnTrue result (number < 16) }
{
    number < 16 && is_wire(number as u8)
}
