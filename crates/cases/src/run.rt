// One call of the program, on objects in memory.

use crate::answer::Answer;
use crate::bytes::Named;
use crate::shelf::put;
use anyhow::{Context, Result, bail};
use std::alloc::Global;
use vms_cli::{Words, vmstate};
use vms_io::{FetchFault, MemShelf, MemSink, MemSource, Shelf, Source};

/// An object of the outside, whose calls may fail.
#[derive(Clone, Copy, Debug, PartialEq, Eq)]
pub(crate) enum Object {
    Reads,
    Writes,
    Notes,
    Shelf,
}

/// The outside of a call.
#[derive(Drop)]
pub(crate) struct Outside<'a, 'b> {
    /// The arguments.
    pub words: &'a [&'b str],
    /// The input.
    pub input: &'a [u8],
    /// The largest size of a read, or 0 for any size.
    pub piece: u32,
    /// The calls that fail, counted from 1 for each object.
    pub fails: &'a [(Object, u32)],
    /// The room for standard output and for standard error, in bytes.
    pub rooms: (u32, u32),
    /// The files on the shelf before the call.
    pub shelf: &'a Named,
    /// The names that are looked up after the call.
    pub names: &'a Named,
}

// The objects of a call.
#[derive(Drop)]
struct Objects {
    input: MemSource,
    out: MemSink,
    notes: MemSink,
    shelf: MemShelf,
}

/// Calls the program and returns its answer.
pub(crate) fn answer(alloc: Global, outside: &Outside) -> Result<Answer> {
    let mut objects = Objects::of(alloc, outside)?;
    let status = call(alloc, outside.words, &mut objects)?;
    let mut answer = Answer::new(alloc);
    answer.status = status;
    see(alloc, outside, &mut objects, &mut answer)?;
    Ok(answer)
}

// Returns the program's status.
fn call(alloc: Global, given: &[&str], objects: &mut Objects) -> Result<u8> {
    let words = words(alloc, given).context("memory")?;
    Ok(vmstate(
        alloc,
        &words,
        &mut objects.input,
        &mut objects.out,
        &mut objects.notes,
        &mut objects.shelf,
    ))
}

impl Objects {
    fn of(alloc: Global, outside: &Outside) -> Result<Objects> {
        let (room, notes_room) = outside.rooms;
        Ok(Objects {
            input: source(alloc, outside)?,
            out: sink(alloc, outside, Object::Writes, room)?,
            notes: sink(alloc, outside, Object::Notes, notes_room)?,
            shelf: shelf(alloc, outside)?,
        })
    }
}

// Puts what is outside after a call into the answer.
fn see(alloc: Global, outside: &Outside, objects: &mut Objects, answer: &mut Answer) -> Result<()> {
    let left = left(&mut objects.input);
    answer.taken = Some(outside.input.len().saturating_sub(left));
    answer.out.extend_from_slice(objects.out.bytes())?;
    answer.notes.extend_from_slice(objects.notes.bytes())?;
    for name in outside.names.keys() {
        if let Some(bytes) = fetched(alloc, &mut objects.shelf, name.as_str())? {
            put(alloc, &mut answer.shelf, name.as_str(), bytes)?;
        }
    }
    Ok(())
}

fn words(alloc: Global, given: &[&str]) -> Option<Words> {
    let mut words = Words::new(alloc);
    for word in given {
        words.push(word).ok()?;
    }
    Some(words)
}

// Returns the numbers of an object's failing calls.
fn failing(alloc: Global, outside: &Outside, object: Object) -> Result<Vec<u32>> {
    let mut numbers = Vec::new(alloc);
    for (failing, number) in outside.fails {
        if *failing == object {
            numbers.push(*number)?;
        }
    }
    Ok(numbers)
}

fn sink(alloc: Global, outside: &Outside, object: Object, room: u32) -> Result<MemSink> {
    let failing = failing(alloc, outside, object)?;
    MemSink::new(alloc, room, failing).ok().context("memory")
}

// Returns the input in pieces of one size.
fn source(alloc: Global, outside: &Outside) -> Result<MemSource> {
    let mut pieces = Vec::new(alloc);
    if outside.piece > 0 {
        // a read for each byte, and one for each end
        for _ in 0..outside.input.len().saturating_mul(2) {
            pieces.push(outside.piece)?;
        }
    }
    let input = outside.input.to_vec(alloc)?;
    let failing = failing(alloc, outside, Object::Reads)?;
    Ok(MemSource::new(input, pieces, failing))
}

// Returns the number of bytes that a source has left, and reads them.
fn left(source: &mut MemSource) -> usize {
    let mut left = 0_usize;
    let mut buf = [0; 4096];
    for _ in 0..u64::MAX {
        match source.read(&mut buf) {
            Ok(0) => break,
            Ok(count) => left = left.saturating_add(count),
            Err(_) => {}
        }
    }
    left
}

fn shelf(alloc: Global, outside: &Outside) -> Result<MemShelf> {
    let mut shelf = MemShelf::new(alloc, failing(alloc, outside, Object::Shelf)?);
    lay(outside.shelf, &mut shelf)?;
    Ok(shelf)
}

// Puts contents on a shelf.
fn lay(contents: &Named, shelf: &mut MemShelf) -> Result<()> {
    for (name, bytes) in contents {
        let put = shelf.put(name.as_str(), bytes.clone()?);
        put.ok().context("memory")?;
    }
    Ok(())
}

// Returns what a shelf holds under a name, after the calls that fail.
fn fetched(alloc: Global, shelf: &mut MemShelf, name: &str) -> Result<Option<Vec<u8>>> {
    for _ in 0..u64::MAX {
        match shelf.fetch(alloc, name, u32::MAX) {
            Ok(bytes) => return Ok(Some(bytes)),
            Err(FetchFault::Failed) => {}
            Err(FetchFault::NotThere) => return Ok(None),
            Err(_) => bail!("memory"),
        }
    }
    Ok(None)
}
