// The files of a call.
ghost use Rattle.std.specs.Prelude.{◌≡◌, List, ℕ, None, OnOk, OnErr};
ghost use Rattle.vms_kinds.specs.Bytes.{IsBytes};
ghost use Rattle.vms_io.specs.Shelves.{PutsUnder};

use std::alloc::Global;
use std::collections::BTreeMap;
use vms_io::{FetchFault, NoMemory, Shelf, StoreFault};

/// The bytes of a file.
#[derive(Drop)]
pub(crate) struct Content {
    /// The bytes.
    pub bytes: Vec<u8>,
    ghost octets: { IsBytes bytes.items },
}

/// Files in memory, in the order of their names. No call fails, unless memory runs out.
#[derive(Drop)]
pub(crate) struct Folder {
    alloc: Global,
    /// The bytes under each name.
    pub entries: BTreeMap<String, Content>,
}

impl Folder {
    ghost use Rattle.vmstate_c.specs.Folders.{held_of};

    /// Creates an empty folder.
    pub(crate) fn new(alloc: Global) -> Folder
        ensures { (name : List ℕ) → held_of result name ≡ None }
    {
        Folder {
            alloc,
            entries: BTreeMap::new(alloc),
        }
    }

    /// Stores `bytes` under `name`, in place of what was there.
    ///
    /// # Errors
    ///
    /// [`NoMemory`] if memory runs out. The folder is unchanged.
    pub(crate) fn put(&mut self, name: &str, bytes: Vec<u8>) -> Result<(), NoMemory>
        ensures ok { OnOk result
            (PutsUnder (held_of self.old) (held_of self.new) name.now bytes.items) }
        ensures err { OnErr result (held_of self.new ≡ held_of self.old) }
    {
        let name = String::from_str(self.alloc, name)?;
        self.entries.insert(name, Content { bytes })?;
        Ok(())
    }
}

impl Shelf for Folder {
    ghost use Rattle.std.specs.Prelude.{Some, refl, true};
    ghost use Rattle.vmstate_c.specs.Folders.{contents_hold, held_of};

    ghost held = { λ s. Some (held_of s) };

    ghost faults = { λ s. 0 };

    ghost promise = { λ s. true };

    ghost promised = { λ s h. refl };

    ghost octets = { λ s. contents_hold s.entries.entries };

    fn fetch(&mut self, alloc: Global, name: &str, limit: u32) -> Result<Vec<u8>, FetchFault> {
        let Some(content) = self.entries.get(name) else {
            return Err(FetchFault::NotThere);
        };
        if content.bytes.len() > limit as usize {
            return Err(FetchFault::TooLarge);
        }
        content
            .bytes
            .as_slice()
            .to_vec(alloc)
            .map_err(|_| FetchFault::NoMemory)
    }

    fn store(&mut self, name: &str, piece: &[u8]) -> Result<(), StoreFault> {
        let Ok(bytes) = piece.to_vec(self.alloc) else {
            return Err(StoreFault::NoMemory);
        };
        self.put(name, bytes).map_err(|_| StoreFault::NoMemory)
    }
}
