// The top call.
ghost use Rattle.std.specs.Prelude.{Some};
ghost use Rattle.vms_io.specs.Told.{intake, outlet, stock};
ghost use Rattle.vms_io.specs.Writing.{Serves};
ghost use Rattle.vms_commands.specs.Endings.{Tells};
ghost use Rattle.vms_cli.specs.Answers.{Answers};

use crate::Words;
use crate::commands::run;
use std::alloc::Global;
use vms_commands::Ending;
use vms_io::{Shelf, Sink, Source, write_all_of};

/// Runs the command that `words` name and returns its exit status.
///
/// The command reads `input` and `shelf`, writes its text to `out` and a line to `notes`.
///
/// | status | meaning |
/// |---|---|
/// | 0 | success; the text is on `out` |
/// | 1 | the stream is refused |
/// | 2 | the words form no command |
/// | 3 | a values text, a script or a description file is refused |
/// | 4 | the sets aren't compatible |
/// | 5 | the input failed |
/// | 6 | `out` or `notes` failed |
/// | 7 | the shelf failed |
/// | 8 | a name isn't on the shelf |
/// | 9 | the file of a name is too large |
/// | 10 | out of memory |
/// | 11 | the set would lose something in the stream |
///
/// One line is written to `notes` for each status but 0. With a status other than 0 and 6 nothing
/// is written to `out`, except by `play`: with 7 and 10 it has written the traces of its first
/// lines, the last of them perhaps in part. `input` is read only by the commands that need a stream:
/// `docs/commands.md` lists them.
pub fn vmstate<I: Source, O: Sink, N: Sink, H: Shelf>(
    alloc: Global,
    words: &Words,
    input: &mut I,
    out: &mut O,
    notes: &mut N,
    shelf: &mut H,
) -> u8
    ensures { Answers words.now result
        (record {
          input = intake I.Source input.old;
          out = outlet O.Sink out.old;
          notes = outlet N.Sink notes.old;
          shelf = stock H.Shelf shelf.old;
        })
        (record {
          input = intake I.Source input.new;
          out = outlet O.Sink out.new;
          notes = outlet N.Sink notes.new;
          shelf = stock H.Shelf shelf.new;
        }) }
{
    match run(alloc, words, input, out, shelf) {
        Ok(()) => 0,
        Err(ending) => tell(notes, &ending),
    }
}

/// Writes the line of `ending` to `notes` and returns its status, or 6 if `notes` fails.
pub fn tell<N: Sink>(notes: &mut N, ending: &Ending) -> u8
    ensures tells { Tells (outlet N.Sink notes.old) (outlet N.Sink notes.new) (Some ending.now)
        result }
    ensures serves { Serves (outlet N.Sink notes.old) (outlet N.Sink notes.new) }
{
    match write_all_of(notes, ending.line()) {
        Ok(()) => ending.status(),
        Err(_) => Ending::WriteFault.status(),
    }
}
