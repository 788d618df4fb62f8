// A case: a call of the program, and its wanted answer.

use crate::answer::Answer;
use crate::bytes::{Known, Named};
use crate::entry::{Entry, number};
use crate::run::Object;
use crate::shelf::{add_either, put_beside};
use anyhow::{Context, Result};
use std::alloc::{AllocError, Global};
use std::collections::BTreeMap;

/// What the cases of a topic share.
#[derive(Drop)]
pub(crate) struct Shared<'a> {
    /// The arguments of cases that have none.
    pub words: Vec<&'a str>,
    /// The files on the shelf.
    pub shelf: Named,
    /// What rows of bytes may name.
    pub known: Known<'a>,
}

/// From this length on, a shorter input is refused with this line. If the line is empty, the input
/// is complete.
#[derive(Clone, Copy)]
pub(crate) struct Cut<'a> {
    /// The least length.
    pub from: usize,
    /// The line, or nothing.
    pub line: &'a str,
}

#[derive(Drop)]
pub(crate) struct Case<'a> {
    /// The name.
    pub name: &'a str,
    /// The call.
    pub call: Call<'a>,
    /// What the call must do.
    pub wanted: Wanted<'a>,
}

/// A call of the program.
#[derive(Drop)]
pub(crate) struct Call<'a> {
    /// The arguments.
    pub words: Vec<&'a str>,
    /// The input.
    pub input: Vec<u8>,
    /// The sizes of the pieces in which the input is read.
    pub pieces: Vec<u32>,
    /// The calls that fail.
    pub faults: Faults,
    /// The room for standard output and for standard error, in bytes.
    pub rooms: (u32, u32),
    /// The files on the shelf.
    pub shelf: Named,
}

/// The calls of objects that fail, by their numbers, from 1.
#[derive(Drop)]
pub(crate) struct Faults {
    /// The calls that fail in every run.
    pub fails: Vec<(Object, u32)>,
    /// The number up to which each call of an object fails alone, in a run of its own.
    pub each: Vec<(Object, u32)>,
}

/// What a call must do.
#[derive(Drop)]
pub(crate) struct Wanted<'a> {
    /// The answer.
    pub answer: Answer,
    /// Whether standard output and standard error may be prefixes of the wanted ones.
    pub may_be_begun: bool,
    /// The lines for inputs that end early, by their least length.
    pub cuts: Vec<Cut<'a>>,
}

const KEYS: [&str; 17] = [
    "name",
    "words",
    "input",
    "pieces",
    "fails",
    "each_fails",
    "room",
    "notes_room",
    "shelf",
    "status",
    "line",
    "out",
    "stream",
    "begun",
    "taken",
    "after",
    "cut",
];

const OBJECTS: [&str; 4] = ["reads", "writes", "notes", "shelf"];

const ALL_OBJECTS: [Object; 4] = [Object::Reads, Object::Writes, Object::Notes, Object::Shelf];

const ROOM: u32 = 65_536;

impl<'a> Case<'a> {
    /// Returns a case before it is read.
    pub(crate) fn new(alloc: Global) -> Case<'a> {
        Case {
            name: "",
            call: Call::new(alloc),
            wanted: Wanted::new(alloc),
        }
    }

    /// Reads the case `entry`.
    pub(crate) fn read(
        &mut self,
        alloc: Global,
        shared: &Shared<'a>,
        entry: Entry<'a>,
    ) -> Result<()> {
        entry.has_only(&KEYS)?;
        self.name = entry.text("name")?.context("a case without a name")?;
        self.call.read(alloc, shared, entry)?;
        let before = &self.call.shelf;
        self.wanted.read(alloc, &shared.known, entry, before)
    }
}

impl<'a> Call<'a> {
    fn new(alloc: Global) -> Call<'a> {
        Call {
            words: Vec::new(alloc),
            input: Vec::new(alloc),
            pieces: Vec::new(alloc),
            faults: Faults {
                fails: Vec::new(alloc),
                each: Vec::new(alloc),
            },
            rooms: (ROOM, ROOM),
            shelf: BTreeMap::new(alloc),
        }
    }

    fn read(&mut self, alloc: Global, shared: &Shared<'a>, entry: Entry<'a>) -> Result<()> {
        self.rooms = rooms(entry)?;
        let input = entry.text("input")?.unwrap_or("");
        add_words(entry, &shared.words, &mut self.words)?;
        shared.known.add(alloc, input, &mut self.input)?;
        add_pieces(entry, &mut self.pieces)?;
        self.faults.read(entry)?;
        let shelf = entry.entry("shelf")?;
        put_beside(alloc, &shared.known, shelf, &shared.shelf, &mut self.shelf)
    }
}

// Returns the room for standard output and for standard error, in bytes.
fn rooms(entry: Entry) -> Result<(u32, u32)> {
    let room = entry.number("room")?.unwrap_or(ROOM);
    let notes_room = entry.number("notes_room")?.unwrap_or(ROOM);
    Ok((room, notes_room))
}

// Appends the arguments of a case, or the shared ones if it has none.
fn add_words<'a>(entry: Entry<'a>, shared: &[&'a str], words: &mut Vec<&'a str>) -> Result<()> {
    if entry.has("words") {
        return entry.add_texts("words", words);
    }
    words.extend_from_slice(shared)?;
    Ok(())
}

// Appends the sizes of pieces, or 0 for any size, if none is given.
fn add_pieces(entry: Entry, pieces: &mut Vec<u32>) -> Result<()> {
    for piece in entry.list("pieces")? {
        pieces.push(number(piece)?)?;
    }
    if pieces.is_empty() {
        pieces.push(0)?;
    }
    Ok(())
}

impl Faults {
    fn read(&mut self, entry: Entry) -> Result<()> {
        if let Some(fails) = entry.entry("fails")? {
            add_calls(fails, &mut self.fails)?;
        }
        if let Some(each) = entry.entry("each_fails")? {
            add_last_calls(each, &mut self.each)?;
        }
        Ok(())
    }
}

fn add_calls(entry: Entry, calls: &mut Vec<(Object, u32)>) -> Result<()> {
    entry.has_only(&OBJECTS)?;
    for (key, object) in OBJECTS.iter().zip(&ALL_OBJECTS) {
        for call in entry.list(key)? {
            calls.push((*object, number(call)?))?;
        }
    }
    Ok(())
}

fn add_last_calls(entry: Entry, calls: &mut Vec<(Object, u32)>) -> Result<()> {
    entry.has_only(&OBJECTS)?;
    for (key, object) in OBJECTS.iter().zip(&ALL_OBJECTS) {
        if let Some(last) = entry.number(key)? {
            calls.push((*object, last))?;
        }
    }
    Ok(())
}

impl<'a> Wanted<'a> {
    fn new(alloc: Global) -> Wanted<'a> {
        Wanted {
            answer: Answer::new(alloc),
            may_be_begun: false,
            cuts: Vec::new(alloc),
        }
    }

    // Reads what a case wants, given what was on the shelf before.
    fn read(
        &mut self,
        alloc: Global,
        known: &Known,
        entry: Entry<'a>,
        before: &Named,
    ) -> Result<()> {
        self.may_be_begun = entry.flag("begun")?;
        add_cuts(entry, &mut self.cuts)?;
        read_answer(alloc, known, entry, &mut self.answer)?;
        let after = entry.entry("after")?;
        put_beside(alloc, known, after, before, &mut self.answer.shelf)
    }
}

fn add_cuts<'a>(entry: Entry<'a>, cuts: &mut Vec<Cut<'a>>) -> Result<()> {
    for cut in entry.list("cut")? {
        cuts.push(cut_of(Entry::of(cut)?)?)?;
    }
    Ok(())
}

fn cut_of<'a>(entry: Entry<'a>) -> Result<Cut<'a>> {
    entry.has_only(&["from", "line"])?;
    let from = entry.number("from")?.context("a cut without from")? as usize;
    let line = entry.text("line")?.context("a cut without a line")?;
    Ok(Cut { from, line })
}

// Reads the answer except for the shelf.
fn read_answer(alloc: Global, known: &Known, entry: Entry, answer: &mut Answer) -> Result<()> {
    let status = u8::try_from(entry.number("status")?.unwrap_or(0)).ok();
    answer.status = status.context("no status")?;
    answer.taken = entry.number("taken")?.map(|taken| taken as usize);
    let line = entry.text("line")?.unwrap_or("");
    add_either(alloc, known, entry, ["stream", "out"], &mut answer.out)?;
    add_notes(line, &mut answer.notes)?;
    Ok(())
}

/// Appends `line` with a line feed to `notes`, or nothing if it is empty.
pub(crate) fn add_notes(line: &str, notes: &mut Vec<u8>) -> Result<(), AllocError> {
    if line.is_empty() {
        return Ok(());
    }
    notes.extend_from_slice(line.as_bytes())?;
    notes.push(b'\n')?;
    Ok(())
}
