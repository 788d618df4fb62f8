// Faults, and their paths.
ghost use Rattle.std.specs.Prelude.{◌≡◌, [], IfOk, decimal};
ghost use Rattle.vms_json.specs.Answers.{joined, IsUnder};
ghost use Rattle.vms_json.specs.declared.fault.Fault.TheVariants as faults;

use std::alloc::{AllocError, AllocFailed, Global};
use vms_parts::Text;

/// A reason why a part of a file can't be read.
#[derive(Drop)]
pub enum Fault {
    /// The first fault is at this path, which begins at the part. It is empty if the part itself is
    /// invalid.
    Shape(Text),
    /// Out of memory.
    NoMemory,
}

impl From<AllocError> for Fault {
    ghost from_gives = { λ _ fault. fault ≡ faults.NoMemory };

    fn from(_: AllocError) -> Self {
        Fault::NoMemory
    }
}

impl<T: Drop> From<AllocFailed<T>> for Fault {
    ghost from_gives = { λ _ fault. fault ≡ faults.NoMemory };

    fn from(_: AllocFailed<T>) -> Self {
        Fault::NoMemory
    }
}

impl Fault {
    /// Returns the fault of a part that is invalid itself.
    ///
    /// Its path is empty.
    pub fn here(alloc: Global) -> Fault
        ensures { result ≡ faults.Shape [] }
    {
        Fault::Shape(Text::new(String::new(alloc)))
    }

    /// Returns the fault of the member `key` as a fault of the whole.
    ///
    /// Its path is `key`, followed by a dot and the path if that isn't empty.
    ///
    /// If memory runs out, it is [`NoMemory`](Fault::NoMemory).
    pub fn under(self, alloc: Global, key: &str) -> Fault
        ensures { IsUnder key.now self result }
    {
        match self {
            Fault::Shape(path) => match join(alloc, key, path.as_str()) {
                Ok(path) => Fault::Shape(path),
                Err(_) => Fault::NoMemory,
            },
            Fault::NoMemory => Fault::NoMemory,
        }
    }

    // Returns the fault of the item at `position` as a fault of the list.
    pub(crate) fn under_item(self, alloc: Global, position: usize) -> Fault
        ensures { IsUnder (decimal position) self result }
    {
        match format!(in alloc; "{position}") {
            Ok(position) => self.under(alloc, &position),
            Err(_) => Fault::NoMemory,
        }
    }
}

fn join(alloc: Global, key: &str, path: &str) -> Result<Text, AllocError>
    ensures { IfOk result (λ t. t ≡ joined key.now path.now) }
{
    let mut text = String::from_str(alloc, key)?;
    if !path.is_empty() {
        text.push('.')?;
        text.push_str(path)?;
    }
    Ok(Text::new(text))
}
