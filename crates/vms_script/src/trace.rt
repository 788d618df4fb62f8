// The trace of a board's answers.
ghost use Rattle.std.specs.Prelude.{◌≡◌, ◌+◌, ◌*◌, ◌++◌, ◌≤◌, [], length};
ghost use Rattle.vms_io.specs.Told.{outlet};
ghost use Rattle.vms_io.specs.Writing.{Wrote};
ghost use Rattle.vms_script.specs.Trace.{trace_line, value_text, sent_text, bytes_text};

use crate::hex::digits_of;
use arrayvec::ArrayVec;
use dev_board::Answer;
use vms_io::{Sink, WriteFault, write_all_of};
use vms_words::append;

// The most bytes of an answer's line: value and output with their spaces, 17 sent bytes of two digits each after a
// space, and a line feed.
const LONGEST_LINE: usize = 40;

/// Writes the line of `answer` to `sink`.
///
/// The line has the value as two hexadecimal digits or `--`, a space, and `1` or `0` for the
/// interrupt output. If bytes were sent, a space and their digits follow. It ends with a line feed.
///
/// # Errors
///
/// [`WriteFault`] if `sink` fails. A prefix of the line has been written then.
#[inline(always)]
pub fn print_answer<K: Sink>(answer: &Answer, sink: &mut K) -> Result<(), WriteFault>
    ensures { let line = trace_line answer.now in
        Wrote (outlet K.Sink sink.old) (outlet K.Sink sink.new) line result }
{
    let written = if answer.sent.is_empty() {
        write_all_of(sink, &short_line(answer))
    } else {
        write_all_of(sink, &long_line(answer))
    };
    match written {
        Ok(()) => Ok(()),
        Err(_) => Err(WriteFault),
    }
}

// Returns the line of an answer without sent bytes.
#[tactic(auto, unfolding(crate::specs::Trace::trace_line))]
fn short_line(answer: &Answer) -> [u8; 5]
    requires { answer.now.sent.items ≡ [] }
    ensures { result ≡ trace_line answer.now }
{
    let [high, low] = value_digits(answer.value);
    let int = if answer.int { b'1' } else { b'0' };
    [high, low, b' ', int, b'\n']
}

// Returns the line of an answer.
#[inline(never)]
#[tactic(auto, unfolding(crate::specs::Trace::trace_line))]
fn long_line(answer: &Answer) -> ArrayVec<u8, LONGEST_LINE>
    ensures { result.items ≡ trace_line answer.now }
{
    let mut line = ArrayVec::new();
    append(&mut line, &value_digits(answer.value));
    append(&mut line, if answer.int { b" 1" } else { b" 0" });
    append_sent(&mut line, answer.sent.as_slice());
    append(&mut line, b"\n");
    line
}

// Returns the two digits of a value, or two dashes.
fn value_digits(value: Option<u8>) -> [u8; 2]
    ensures { result ≡ value_text value }
{
    match value {
        Some(value) => digits_of(value),
        None => *b"--",
    }
}

// Appends a space and the digits of the sent bytes, if there are any.
fn append_sent(line: &mut ArrayVec<u8, LONGEST_LINE>, sent: &[u8])
    requires { length line.old.items + 2 * length sent.now + 1 ≤ LONGEST_LINE }
    ensures items { line.new.items ≡ line.old.items ++ sent_text sent.now }
    ensures few { length line.new.items ≤ length line.old.items + 2 * length sent.now + 1 }
{
    if !sent.is_empty() {
        append(line, b" ");
        append_digits(line, sent);
    }
}

// Appends the digits of bytes.
fn append_digits(line: &mut ArrayVec<u8, LONGEST_LINE>, bytes: &[u8])
    requires { length line.old.items + 2 * length bytes.now ≤ LONGEST_LINE }
    ensures items { line.new.items ≡ line.old.items ++ bytes_text bytes.now }
    ensures count { length line.new.items ≡ length line.old.items + 2 * length bytes.now }
{
    for byte in bytes {
        append(line, &digits_of(*byte));
    }
}
