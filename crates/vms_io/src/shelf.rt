// Files by name.
ghost use Rattle.std.specs.Prelude.{◌≡◌, ◌≤◌, List, ℕ, Bool, Option, Some, length, IfOk, IfErr, IfSome, OnOk, OnErr, IsTrue};
ghost use Rattle.vms_io.specs.Shelves.{FetchRefuses, HoldsAll, PutsUnder, KeepsOthers, IfToldBoth, HasFetchCause, HasStoreCause};

use std::alloc::Global;

/// A reason why `fetch` returned no bytes.
#[derive(Clone, Copy, Debug, PartialEq, Eq)]
pub enum FetchFault {
    /// Nothing is stored under the name.
    NotThere = 1,
    /// The bytes under the name are more than the limit.
    TooLarge,
    /// The shelf failed.
    Failed,
    /// Out of memory.
    NoMemory,
}

/// A reason why `store` failed.
#[derive(Clone, Copy, Debug, PartialEq, Eq)]
pub enum StoreFault {
    /// The shelf failed.
    Failed = 1,
    /// Out of memory.
    NoMemory,
}

/// A store of bytes under names, such as a folder of files.
pub trait Shelf {
    /// The bytes under each name, or `None` if they are unknown to contracts.
    ghost held: { Self → Option (List ℕ → Option (List ℕ)) };

    /// The number of calls that have failed.
    ghost faults: { Self → ℕ };

    /// True if no call fails.
    ghost promise: { Self → Bool };

    /// Returns the bytes that are stored under `name`, at most `limit` of them.
    ///
    /// What the shelf holds doesn't change.
    ///
    /// # Errors
    ///
    /// - [`FetchFault::NotThere`]: nothing is stored under `name`.
    /// - [`FetchFault::TooLarge`]: more than `limit` bytes are stored under `name`.
    /// - [`FetchFault::Failed`]: the shelf failed, and its count of faults has risen.
    /// - [`FetchFault::NoMemory`]: out of memory.
    fn fetch(&mut self, alloc: Global, name: &str, limit: u32) -> Result<Vec<u8>, FetchFault>
        ensures fits { IfOk result (λ bytes. length bytes.items ≤ limit) }
        ensures bytes { IfOk result (λ bytes.
            IfSome (held self.old) (λ map. map name.now ≡ Some bytes.items)) }
        ensures refused { IfErr result (λ fault.
            IfSome (held self.old) (λ map. FetchRefuses (map name.now) limit fault)) }
        ensures kept { held self.new ≡ held self.old }
        ensures cause { HasFetchCause (faults self.old) (faults self.new) result }
        ensures promise { promise self.new ≡ promise self.old };

    /// Stores `piece` under `name`, in place of what was there. What is stored under other names
    /// doesn't change.
    ///
    /// # Errors
    ///
    /// - [`StoreFault::Failed`]: the shelf failed, and its count of faults has risen. What is
    ///   stored under `name` is unknown.
    /// - [`StoreFault::NoMemory`]: out of memory. What the shelf holds hasn't changed.
    fn store(&mut self, name: &str, piece: &[u8]) -> Result<(), StoreFault>
        ensures stored { OnOk result (IfToldBoth (held self.old) (held self.new) (λ old new.
            PutsUnder old new name.now piece.now)) }
        ensures others { OnErr result
            (IfToldBoth (held self.old) (held self.new) (λ old new. KeepsOthers old new name.now)) }
        ensures unchanged { IfErr result (λ fault.
            fault ≡ StoreFault.NoMemory → held self.new ≡ held self.old) }
        ensures cause { HasStoreCause (faults self.old) (faults self.new) result }
        ensures promise { promise self.new ≡ promise self.old };

    /// If no call fails, none has failed.
    ghost promised: { (shelf : Self) → IsTrue (promise shelf) → faults shelf ≡ 0 };

    /// What is stored consists of bytes, if it is known.
    ghost octets: { (shelf : Self) → IfSome (held shelf) HoldsAll };
}
