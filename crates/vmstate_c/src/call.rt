// The top call on objects in memory.
ghost use Rattle.std.specs.Prelude.{◌≡◌, ◌∷◌, [], IfOk, OnOk, List, ℕ};
ghost use Rattle.vms_io.specs.Supplies.{supply};
ghost use Rattle.vmstate_c.specs.Calls.{Leaves, words_of, file_of, file_over};
ghost use Rattle.vmstate_c.specs.Folders.{held_of};

use crate::folder::Folder;
use crate::request::{Bytes, File, Request};
use std::alloc::Global;
use std::str;
use vms_board_streams::Growing;
use vms_cli::{Words, vmstate};
use vms_io::{MemSource, NoMemory};

/// The result of a call: the status, both outputs and the files.
#[derive(Drop)]
pub(crate) struct Ended {
    /// The status.
    pub status: u8,
    /// The bytes written to standard output.
    pub out: Vec<u8>,
    /// The bytes written to standard error.
    pub notes: Vec<u8>,
    /// The files after the call.
    pub folder: Folder,
}

/// Makes the call in `request` on objects in memory.
///
/// # Errors
///
/// [`NoMemory`] if memory runs out.
pub(crate) fn call(alloc: Global, request: &Request<'_>) -> Result<Ended, NoMemory>
    ensures { IfOk result (λ ended.
        Leaves request.now ended.status ended.out.items ended.notes.items
        (held_of ended.folder)) }
{
    let words = words_of(alloc, request.words)?;
    let mut folder = folder_of(alloc, request.files)?;
    let mut input = MemSource::new(
        request.input.to_vec(alloc)?,
        Vec::new(alloc),
        Vec::new(alloc),
    );
    let mut out = Growing::new(alloc);
    let mut notes = Growing::new(alloc);
    let status = vmstate(alloc, &words, &mut input, &mut out, &mut notes, &mut folder);
    if out.has_failed() || notes.has_failed() {
        return Err(NoMemory);
    }
    Ok(Ended {
        status,
        out: out.into_bytes(),
        notes: notes.into_bytes(),
        folder,
    })
}

// Returns the words, or one empty word if one of them isn't UTF-8, like the program.
fn words_of(alloc: Global, asked: &[Bytes<'_>]) -> Result<Words, NoMemory>
    ensures { IfOk result (λ words. words ≡ words_of asked.now) }
{
    let mut words = Words::new(alloc);
    for word in asked {
        match str::from_utf8(word.bytes) {
            Ok(word) => words.push(word)?,
            Err(_) => return empty_word(alloc),
        }
    }
    Ok(words)
}

fn empty_word(alloc: Global) -> Result<Words, NoMemory>
    ensures { IfOk result (λ words. words ≡ [] ∷ []) }
{
    let mut words = Words::new(alloc);
    words.push("")?;
    Ok(words)
}

// Returns a folder with these files. No word names a file whose name isn't UTF-8.
fn folder_of(alloc: Global, files: &[File<'_>]) -> Result<Folder, NoMemory>
    ensures { (name : List ℕ) → IfOk result (λ folder. held_of folder name ≡ file_of name files.now) }
{
    let mut folder = Folder::new(alloc);
    for file in files {
        put(alloc, &mut folder, file)?;
    }
    Ok(folder)
}

fn put(alloc: Global, folder: &mut Folder, file: &File<'_>) -> Result<(), NoMemory>
    ensures { (name : List ℕ) → OnOk result
        (held_of folder.new name ≡ file_over file.now (held_of folder.old) name) }
{
    if let Ok(name) = str::from_utf8(file.name) {
        folder.put(name, file.bytes.to_vec(alloc)?)?;
    }
    Ok(())
}
