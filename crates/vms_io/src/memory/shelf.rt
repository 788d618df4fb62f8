// A shelf in memory.
ghost use Rattle.std.specs.Prelude.{◌≡◌, ◌≤◌, [], None, List, ℕ, length, IfOk, IfErr, OnOk, OnErr, Some};
ghost use Rattle.vms_kinds.specs.Bytes.{IsBytes};
ghost use Rattle.vms_io.specs.Memory.{is_empty, empty_is};
ghost use Rattle.vms_io.specs.Shelves.{FetchRefuses, PutsUnder, KeepsOthers, HasFetchCause, HasStoreCause, CountsFetches, CountsStores};

use super::is_listed;
use crate::{FetchFault, NoMemory, Shelf, StoreFault};
use std::alloc::Global;
use std::collections::BTreeMap;

// The bytes under a name.
#[derive(Drop)]
struct Content {
    bytes: Vec<u8>,
    ghost octets: { IsBytes bytes.items },
}

/// A shelf in memory, for tests and for a save and a restore in one process. The calls of chosen
/// numbers fail.
#[derive(Drop)]
pub struct MemShelf {
    alloc: Global,
    entries: BTreeMap<String, Content>,
    failing: Vec<u32>,
    calls: u64,
    faults: u64,
    ghost quiet: { failing.items ≡ [] → faults ≡ 0 },
}

impl MemShelf {
    ghost use Rattle.vms_io.specs.Cabinets.{cabinet};

    /// Returns an empty shelf whose memory comes from `alloc`.
    ///
    /// Calls of `fetch` and `store` are counted together from 1. Exactly those whose numbers are in
    /// `failing` fail.
    pub fn new(alloc: Global, failing: Vec<u32>) -> MemShelf
        ensures empty { (name : List ℕ) → (cabinet result).held name ≡ None }
        ensures failing { (cabinet result).failing ≡ failing.items }
        ensures calls { (cabinet result).calls ≡ 0 }
        ensures faults { (cabinet result).faults ≡ 0 }
    {
        MemShelf {
            alloc: alloc,
            entries: BTreeMap::new(alloc),
            failing,
            calls: 0,
            faults: 0,
        }
    }

    /// Stores `bytes` under `name`, in place of what was there.
    ///
    /// This isn't counted as a call, and it never fails by `failing`.
    ///
    /// # Errors
    ///
    /// - [`NoMemory`]: out of memory. The shelf holds what it held before.
    pub fn put(&mut self, name: &str, bytes: Vec<u8>) -> Result<(), NoMemory>
        ensures ok { OnOk result
            (PutsUnder (cabinet self.old).held (cabinet self.new).held name.now bytes.items) }
        ensures err { OnErr result ((cabinet self.new).held ≡ (cabinet self.old).held) }
        ensures failing { (cabinet self.new).failing ≡ (cabinet self.old).failing }
        ensures calls { (cabinet self.new).calls ≡ (cabinet self.old).calls }
        ensures faults { (cabinet self.new).faults ≡ (cabinet self.old).faults }
    {
        let name = String::from_str(self.alloc, name)?;
        self.entries.insert(name, Content { bytes })?;
        Ok(())
    }
}

impl Shelf for MemShelf {
    ghost use Rattle.vms_io.specs.Cabinets.{IsNextCall, cabinet, contents_hold};

    ghost held = { λ s. Some (cabinet s).held };

    ghost faults = { λ s. (cabinet s).faults };

    ghost promise = { λ s. is_empty (cabinet s).failing };

    ghost promised = { λ s h. s.quiet (empty_is s.failing.items h) };

    ghost octets = { λ s. contents_hold s.entries.entries };

    /// Returns a copy of the bytes under `name`, at most `limit` of them.
    ///
    /// # Errors
    ///
    /// - [`FetchFault::Failed`]: this is a call that must fail. No other call returns it.
    /// - [`FetchFault::NotThere`]: nothing is stored under `name`.
    /// - [`FetchFault::TooLarge`]: more than `limit` bytes are stored under `name`.
    /// - [`FetchFault::NoMemory`]: out of memory.
    fn fetch(&mut self, alloc: Global, name: &str, limit: u32) -> Result<Vec<u8>, FetchFault>
        ensures fits { IfOk result (λ bytes. length bytes.items ≤ limit) }
        ensures bytes { IfOk result (λ bytes. (cabinet self.old).held name.now ≡ Some bytes.items) }
        ensures refused { IfErr result (λ fault.
            FetchRefuses ((cabinet self.old).held name.now) limit fault) }
        ensures kept { (cabinet self.new).held ≡ (cabinet self.old).held }
        ensures cause { HasFetchCause (cabinet self.old).faults (cabinet self.new).faults result }
        ensures promise { is_empty (cabinet self.new).failing
            ≡ is_empty (cabinet self.old).failing }
        ensures counts { CountsFetches (cabinet self.old).faults (cabinet self.new).faults result }
        ensures next { IsNextCall (cabinet self.old) (cabinet self.new)
            (result ≡ Err FetchFault.Failed) }
    {
        self.calls = self.calls.saturating_add(1);
        if is_listed(&self.failing, self.calls) {
            self.faults = self.faults.saturating_add(1);
            return Err(FetchFault::Failed);
        }
        let Some(content) = self.entries.get(name) else {
            return Err(FetchFault::NotThere);
        };
        if content.bytes.len() > limit as usize {
            return Err(FetchFault::TooLarge);
        }
        content
            .bytes
            .as_slice()
            .to_vec(alloc)
            .map_err(|_| FetchFault::NoMemory)
    }

    /// Stores a copy of `piece` under `name`, in place of what was there.
    ///
    /// # Errors
    ///
    /// In every case the shelf holds what it held before.
    ///
    /// - [`StoreFault::Failed`]: this is a call that must fail. No other call returns it.
    /// - [`StoreFault::NoMemory`]: out of memory.
    fn store(&mut self, name: &str, piece: &[u8]) -> Result<(), StoreFault>
        ensures stored { OnOk result
            (PutsUnder (cabinet self.old).held (cabinet self.new).held name.now piece.now) }
        ensures others { OnErr result
            (KeepsOthers (cabinet self.old).held (cabinet self.new).held name.now) }
        ensures unchanged { OnErr result ((cabinet self.new).held ≡ (cabinet self.old).held) }
        ensures cause { HasStoreCause (cabinet self.old).faults (cabinet self.new).faults result }
        ensures promise { is_empty (cabinet self.new).failing
            ≡ is_empty (cabinet self.old).failing }
        ensures counts { CountsStores (cabinet self.old).faults (cabinet self.new).faults result }
        ensures next { IsNextCall (cabinet self.old) (cabinet self.new)
            (result ≡ Err StoreFault.Failed) }
    {
        self.calls = self.calls.saturating_add(1);
        if is_listed(&self.failing, self.calls) {
            self.faults = self.faults.saturating_add(1);
            return Err(StoreFault::Failed);
        }
        let Ok(bytes) = piece.to_vec(self.alloc) else {
            return Err(StoreFault::NoMemory);
        };
        self.put(name, bytes).map_err(|_| StoreFault::NoMemory)
    }
}
