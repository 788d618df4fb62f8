// The whole program, except for the objects of the operating system.
ghost use Rattle.std.specs.Prelude.{◌≡◌, IfOk, None, OnErr, IsSomeAnd};
ghost use Rattle.vms_io.specs.Told.{Stock, intake, outlet, stock};
ghost use Rattle.vms_io.specs.Writers.{writer_of};
ghost use Rattle.vms_cli.specs.Answers.{Answers};
ghost use Rattle.vms_cli.specs.Program.{Ends, NotesEnd, Ran, TellsLate, outside};

use crate::Words;
use crate::top::{tell, vmstate};
use std::alloc::Global;
use std::io::{Read, Write};
use vms_commands::Ending;
use vms_io::{NoMemory, Shelf, Sink, Source, StdSink, StdSource};

/// Runs the program: makes the call that the words in `handed` name, over `input`, two writers and
/// the shelf in `handed`, and flushes both texts. Returns the status with the writers.
///
/// If memory ran out for the words or the shelf, there is no call: the status is 10, and nothing is
/// read or written. If the last bytes for `out` can't be written, the status is 6, and `notes` gets
/// the line `write fault` in place of the call's. If those for `notes` can't be written, the status
/// is 6 as well.
pub fn program<R: Read + Drop, W: Write + Drop, E: Write + Drop, H: Shelf + Drop>(
    alloc: Global,
    handed: Result<(Words, H), NoMemory>,
    input: R,
    out: W,
    notes: E,
) -> (u8, W, E)
    ensures made { IfOk handed (λ given. Ran given.0
        (outside (R.remaining input) (W.contents out) (E.contents notes) (stock H.Shelf given.1))
        result.0 (W.contents result.1) (E.contents result.2)) }
    ensures none { OnErr handed (result ≡ (10, out, notes)) }
{
    let mut input = StdSource::new(alloc, input);
    let mut out = StdSink::new(out);
    let mut notes = StdSink::new(notes);
    let Some(answered) = call(alloc, handed, &mut input, &mut out, &mut notes) else {
        return (
            Ending::NoMemory.status(),
            out.into_inner(),
            notes.into_inner(),
        );
    };
    let status = flush(answered, &mut out, &mut notes);
    (status, out.into_inner(), notes.into_inner())
}

// Makes the call with the words and the shelf in `handed`. If memory ran out for these there is no call, and
// nothing is read or written.
fn call<I: Source, O: Sink, N: Sink, H: Shelf + Drop>(
    alloc: Global,
    handed: Result<(Words, H), NoMemory>,
    input: &mut I,
    out: &mut O,
    notes: &mut N,
) -> Option<u8>
    ensures made { IfOk handed (λ given. IsSomeAnd result (λ status. (shelf : Stock)
        × Answers given.0 status
        (record {
          input = intake I.Source input.old;
          out = outlet O.Sink out.old;
          notes = outlet N.Sink notes.old;
          shelf = stock H.Shelf given.1;
        })
        (record {
          input = intake I.Source input.new;
          out = outlet O.Sink out.new;
          notes = outlet N.Sink notes.new;
          shelf = shelf;
        }))) }
    ensures none { OnErr handed (result ≡ None) }
    ensures input { OnErr handed (input.new ≡ input.old) }
    ensures out { OnErr handed (out.new ≡ out.old) }
    ensures notes { OnErr handed (notes.new ≡ notes.old) }
{
    let Ok((words, mut shelf)) = handed else {
        return None;
    };
    Some(vmstate(alloc, &words, input, out, notes, &mut shelf))
}

// Flushes both texts and returns the final status.
fn flush<W: Write + Drop, E: Write + Drop>(
    answered: u8,
    out: &mut StdSink<W>,
    notes: &mut StdSink<E>,
) -> u8
    ensures { Ends answered (⟦<StdSink<W> as Sink>⟧.written out.old)
        (⟦<StdSink<E> as Sink>⟧.written notes.old) result
        (W.contents (writer_of out.new)) (E.contents (writer_of notes.new)) }
{
    match out.flush() {
        Ok(()) => flush_notes(answered, notes),
        Err(_) => tell_late(notes),
    }
}

// Flushes the line, once the text is flushed.
fn flush_notes<E: Write + Drop>(answered: u8, notes: &mut StdSink<E>) -> u8
    ensures { NotesEnd answered (⟦<StdSink<E> as Sink>⟧.written notes.old) result
        (E.contents (writer_of notes.new)) }
{
    match notes.flush() {
        Ok(()) => answered,
        Err(_) => Ending::WriteFault.status(),
    }
}

// Writes the line of a write fault in place of the call's, of which nothing or only a prefix has been flushed.
fn tell_late<E: Write + Drop>(notes: &mut StdSink<E>) -> u8
    ensures status { result ≡ 6 }
    ensures told { TellsLate (⟦<StdSink<E> as Sink>⟧.written notes.old)
        (E.contents (writer_of notes.new)) }
{
    notes.discard();
    let _told = tell(notes, &Ending::WriteFault);
    let _flushed = notes.flush();
    Ending::WriteFault.status()
}
