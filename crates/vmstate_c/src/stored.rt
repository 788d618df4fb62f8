// The files that a call stored, as C sees them.
ghost use Rattle.std.specs.Prelude.{◌≡◌, ◌++◌, ◌∷◌, [], ◌+◌, List, length, IfOk, OnOk};
ghost use Rattle.vmstate_c.specs.Folders.{held_of};
ghost use Rattle.vmstate_c.specs.Storing.{IsStored, Entry, bytes_of, is_lent, places};

use crate::folder::Folder;
use crate::request::{File, Stored};
use std::alloc::Global;
use vms_io::NoMemory;

/// Files in one list of bytes.
#[derive(Drop)]
pub(crate) struct Packed {
    /// Where each file is in the bytes.
    pub files: Vec<Stored>,
    /// The name and the bytes of each file, one after the other.
    pub bytes: Vec<u8>,
}

/// Returns the files of `folder` that aren't among `lent` with the same bytes.
///
/// # Errors
///
/// [`NoMemory`] if memory runs out.
pub(crate) fn pack(alloc: Global, folder: &Folder, lent: &[File<'_>]) -> Result<Packed, NoMemory>
    ensures { IfOk result (λ packed. (stored : List Entry) × IsStored lent.now (held_of folder.now) stored
        × (packed.files.items ≡ places 0 stored) × (packed.bytes.items ≡ bytes_of stored)) }
{
    let mut packed = Packed {
        files: Vec::new(alloc),
        bytes: Vec::new(alloc),
    };
    for (name, content) in folder.entries.iter() {
        if !is_lent(lent, name.as_str(), &content.bytes) {
            packed.push(name.as_str(), &content.bytes)?;
        }
    }
    Ok(packed)
}

// Reports whether the last of these files with this name has these bytes.
fn is_lent(files: &[File<'_>], name: &str, bytes: &[u8]) -> bool
    ensures { result ≡ is_lent files.now name.now bytes.now }
{
    let mut is_same = false;
    for file in files {
        if file.name == name.as_bytes() {
            is_same = file.bytes == bytes;
        }
    }
    is_same
}

impl Packed {
    // Adds a file.
    fn push(&mut self, name: &str, bytes: &[u8]) -> Result<(), NoMemory>
        ensures bytes { OnOk result
            (self.new.bytes.items ≡ self.old.bytes.items ++ (name.now ++ bytes.now)) }
        ensures files { let at = length self.old.bytes.items in
            OnOk result (self.new.files.items ≡ self.old.files.items
            ++ record {
              name = at;
              name_length = length name.now;
              bytes = at + length name.now;
              length = length bytes.now;
            } ∷ []) }
    {
        let start = self.bytes.len();
        self.bytes.extend_from_slice(name.as_bytes())?;
        let middle = self.bytes.len();
        self.bytes.extend_from_slice(bytes)?;
        self.files.push(Stored {
            name: start,
            name_length: name.len(),
            bytes: middle,
            length: bytes.len(),
        })?;
        Ok(())
    }
}
