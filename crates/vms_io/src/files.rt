// The files of one folder.
ghost use Rattle.std.specs.Prelude.{◌≡◌, ◌≢◌, ◌≤◌, ◌<◌, None, Ok, Err, false, length, take, string_bytes, IfOk, IfErr, IfSome, OnOk};
ghost use Rattle.std.specs.Io.KnownBytes.{Appends};
ghost use Rattle.std.specs.IoError.{error_kind};
ghost use Rattle.vms_io.specs.Shelves.{CountsFetches, CountsStores, HasFetchCause, HasStoreCause};

use crate::{FetchFault, Shelf, StoreFault};
use std::alloc::Global;
use std::fs::{File, OpenFile, OpenOptions, Permissions};
use std::io::{ErrorKind, Read, Write};
use std::rt::Files;
use std::{fs, io};

// The number of bytes that are read from a file at once.
const PIECE: usize = 2048;

/// A shelf over the files of one folder, by their names in it. Its contents are unknown: no
/// contract says what the files hold.
#[derive(Drop)]
pub struct FileShelf<R: Files + Drop> {
    rt: R,
    folder: String,
    faults: u64,
}

impl<R: Files + Drop> FileShelf<R> {
    ghost use Rattle.vms_io.specs.Folders.{folder_of};

    /// Returns the shelf over folder `folder`, with no faults counted.
    pub fn new(rt: R, folder: String) -> Self
        ensures faults { ⟦<FileShelf<R> as Shelf>⟧.faults result ≡ 0 }
        ensures folder { folder_of result ≡ string_bytes folder }
    {
        FileShelf {
            rt,
            folder,
            faults: 0,
        }
    }

    // Reads a file, up to `limit` bytes and one more.
    fn read(&self, alloc: Global, name: &str, limit: u32) -> io::Result<Vec<u8>> {
        let path = format!(in alloc; "{}/{name}", self.folder)?;
        let file = fs::open(&self.rt, path.as_str())?;
        read_front(alloc, file, u64::from(limit) + 1)
    }

    // Writes the bytes into a new file, which replaces the old one. If the name is no regular file
    // (a link, a pipe, a device), it stays and the bytes are written into it.
    fn write(&self, name: &str, piece: &[u8]) -> io::Result<()> {
        let alloc = *self.folder.allocator();
        let path = format!(in alloc; "{}/{name}", self.folder)?;
        let beside = format!(in alloc; "{}/.{name}.new", self.folder)?;
        match fs::symlink_metadata(&self.rt, path.as_str()) {
            Ok(there) if there.is_file() => {
                // only a file that may be written is replaced
                let _old = OpenOptions::new()
                    .write(true)
                    .open(&self.rt, path.as_str())?;
                self.replace(&path, &beside, piece, Some(there.permissions()))
            }
            Ok(_) => self.overwrite(&path, piece),
            Err(error) if error.kind() == ErrorKind::NotFound => {
                self.replace(&path, &beside, piece, None)
            }
            Err(error) => Err(error),
        }
    }

    // Creates the new file. If an interrupted call left one of its name, that is removed before.
    fn create_beside(&self, beside: &str) -> io::Result<R::File> {
        match File::create_new(&self.rt, beside) {
            Err(error) if error.kind() == ErrorKind::AlreadyExists => {
                fs::remove_file(&self.rt, beside)?;
                File::create_new(&self.rt, beside)
            }
            created => created,
        }
    }

    // Writes a new file beside the old one and renames it. After an error the new file is removed
    // and the old one is unchanged.
    fn replace(
        &self,
        path: &str,
        beside: &str,
        piece: &[u8],
        mode: Option<Permissions>,
    ) -> io::Result<()> {
        let mut file = self.create_beside(beside)?;
        let replaced = fill(&mut file, piece, mode).and_then(|()| fs::rename(
            &self.rt, beside, path,
        ));
        if replaced.is_err() {
            let _removed = fs::remove_file(&self.rt, beside);
        }
        replaced
    }

    // Writes into the existing file.
    fn overwrite(&self, path: &str, piece: &[u8]) -> io::Result<()> {
        let mut file = fs::create(&self.rt, path)?;
        refill(&mut file, piece)
    }
}

// Reads the first `most` bytes of a file.
//
// `read_to_end` clears the room for each byte before it reads it. So the bytes pass through a buffer
// of fixed length, and `read_to_end` is called only after an error, to try again what failed.
fn read_front<F: Read + Drop>(alloc: Global, file: F, most: u64) -> io::Result<Vec<u8>>
    ensures { IfOk result (λ bytes.
        IfSome (F.remaining file) (λ held. bytes.items ≡ take most held)) }
{
    let mut file = file.take(most);
    let mut bytes = Vec::new(alloc);
    let mut piece = [0; PIECE];
    while let Ok(count) = file.read(&mut piece) {
        if count == 0 {
            return Ok(bytes);
        }
        bytes.extend_from_slice(&piece[..count])?;
    }
    file.read_to_end(&mut bytes)?;
    Ok(bytes)
}

// Writes `piece` into a new file and syncs it to the disk.
fn fill<F: Write + OpenFile>(
    file: &mut F,
    piece: &[u8],
    mode: Option<Permissions>,
) -> io::Result<()>
    ensures { OnOk result (Appends (F.contents file.old) (F.contents file.new) piece.now) }
{
    if let Some(mode) = mode {
        file.set_permissions(mode)?;
    }
    file.write_all(piece)?;
    file.sync_all()
}

// Writes `piece` into a file whose earlier bytes are gone. So every error is a failure, also if
// memory runs out.
fn refill<F: Write>(file: &mut F, piece: &[u8]) -> io::Result<()>
    ensures bytes { OnOk result (Appends (F.contents file.old) (F.contents file.new) piece.now) }
    ensures kind { IfErr result (λ error. error_kind error ≡ ErrorKind.Other) }
{
    file.write_all(piece)
        .map_err(|_| io::Error::from(ErrorKind::Other))
}

// Returns the bytes that were read if they are at most `limit`, and otherwise the fault. Counts a
// failure.
fn fetched(faults: &mut u64, read: io::Result<Vec<u8>>, limit: u32) -> Result<Vec<u8>, FetchFault>
    ensures fits { IfOk read (λ bytes. length bytes.items ≤ limit → result ≡ Ok bytes) }
    ensures large { IfOk read (λ bytes. limit < length bytes.items
        → result ≡ Err FetchFault.TooLarge) }
    ensures missing { IfErr read (λ error. error_kind error ≡ ErrorKind.NotFound
        → result ≡ Err FetchFault.NotThere) }
    ensures memory { IfErr read (λ error. error_kind error ≡ ErrorKind.OutOfMemory
        → result ≡ Err FetchFault.NoMemory) }
    ensures failed { IfErr read (λ error. error_kind error ≢ ErrorKind.NotFound
        → error_kind error ≢ ErrorKind.OutOfMemory → result ≡ Err FetchFault.Failed) }
    ensures counts { CountsFetches faults.old faults.new result }
    ensures cause { HasFetchCause faults.old faults.new result }
{
    match read {
        Ok(bytes) if bytes.len() <= limit as usize => Ok(bytes),
        Ok(_) => Err(FetchFault::TooLarge),
        Err(error) => Err(match error.kind() {
            ErrorKind::NotFound => FetchFault::NotThere,
            ErrorKind::OutOfMemory => FetchFault::NoMemory,
            _ => {
                *faults = faults.saturating_add(1);
                FetchFault::Failed
            }
        }),
    }
}

// Returns the result of a store whose file was written with the result `written`. Counts a failure.
fn stored(faults: &mut u64, written: io::Result<()>) -> Result<(), StoreFault>
    ensures ok { OnOk written (result ≡ Ok tt) }
    ensures memory { IfErr written (λ error. error_kind error ≡ ErrorKind.OutOfMemory
        → result ≡ Err StoreFault.NoMemory) }
    ensures failed { IfErr written (λ error. error_kind error ≢ ErrorKind.OutOfMemory
        → result ≡ Err StoreFault.Failed) }
    ensures counts { CountsStores faults.old faults.new result }
    ensures cause { HasStoreCause faults.old faults.new result }
{
    match written {
        Ok(()) => Ok(()),
        Err(error) if error.kind() == ErrorKind::OutOfMemory => Err(StoreFault::NoMemory),
        Err(_) => {
            *faults = faults.saturating_add(1);
            Err(StoreFault::Failed)
        }
    }
}

impl<R: Files + Drop> Shelf for FileShelf<R> {
    ghost held = { λ s. None };

    ghost faults = { λ s. s.faults };

    ghost promise = { λ s. false };

    ghost promised = { λ s h. Prim.cc };

    ghost octets = { λ s. tt };

    /// Reads the file `name` of the folder.
    ///
    /// # Errors
    ///
    /// - [`FetchFault::NotThere`]: the folder has no such file.
    /// - [`FetchFault::TooLarge`]: the file has more than `limit` bytes.
    /// - [`FetchFault::NoMemory`]: out of memory.
    /// - [`FetchFault::Failed`]: any other error, for example if `name` is a folder or can't be
    ///   read.
    fn fetch(&mut self, alloc: Global, name: &str, limit: u32) -> Result<Vec<u8>, FetchFault> {
        let read = self.read(alloc, name, limit);
        fetched(&mut self.faults, read, limit)
    }

    /// Writes `piece` to the file `name` of the folder, in place of what it held.
    ///
    /// # Errors
    ///
    /// - [`StoreFault::NoMemory`]: out of memory.
    /// - [`StoreFault::Failed`]: any other error.
    fn store(&mut self, name: &str, piece: &[u8]) -> Result<(), StoreFault> {
        let written = self.write(name, piece);
        stored(&mut self.faults, written)
    }
}
