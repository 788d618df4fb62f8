// The path of an element.
ghost use Rattle.std.specs.Prelude.{◌≡◌, ◌+◌, ◌≤◌, [], ◌++◌, length, take, IfOk, IsUtf8, string_bytes, string_capacity};

use itoa::Buffer;
use std::alloc::{AllocError, Global};

// The room of a path: 44 bytes for the name and the index of a field, and a dot and the same for each
// of at most 64 structures below it.
const LONGEST_PATH: usize = 2924;

// The path of the next element, with room for the longest.
#[derive(Drop)]
pub(crate) struct Path {
    text: String,
    ghost roomy: { 2924 ≤ string_capacity text },
}

impl Path {
    ghost use Rattle.vms_selfdesc.specs.Listing.{element_path};

    // Returns an empty path.
    pub(crate) fn new(alloc: Global) -> Result<Self, AllocError>
        ensures { IfOk result (λ p. string_bytes p.text ≡ []) }
    {
        let text = String::with_capacity(alloc, LONGEST_PATH)?;
        Ok(Path { text })
    }

    pub(crate) fn as_str(&self) -> &str
        ensures { result.now ≡ string_bytes self.now.text }
    {
        self.text.as_str()
    }

    pub(crate) fn len(&self) -> usize
        ensures { result ≡ length (string_bytes self.now.text) }
    {
        self.text.len()
    }

    // Extends the path by `name`.
    pub(crate) fn enter(&mut self, name: &str)
        requires { length (string_bytes self.old.text) + length name.now ≤ 2924 }
        ensures { string_bytes self.new.text ≡ string_bytes self.old.text ++ name.now }
    {
        // The room is enough.
        let _ = self.text.push_str(name);
    }

    // Extends the path to element `number` of an array.
    pub(crate) fn enter_element(&mut self, number: u32)
        requires { length (string_bytes self.old.text) + 12 ≤ 2924 }
        ensures { string_bytes self.new.text ≡ element_path (string_bytes self.old.text) number }
    {
        let mut digits = Buffer::new();
        self.enter("[");
        self.enter(digits.format(number));
        self.enter("]");
    }

    // Cuts the path to its first bytes.
    pub(crate) fn leave(&mut self, kept: usize)
        requires within { kept ≤ length (string_bytes self.old.text) }
        requires text { IsUtf8 (take kept (string_bytes self.old.text)) }
        ensures { string_bytes self.new.text ≡ take kept (string_bytes self.old.text) }
    {
        self.text.truncate(kept);
    }

    // Removes the path. The room stays.
    pub(crate) fn clear(&mut self)
        ensures { string_bytes self.new.text ≡ [] }
    {
        self.text.clear();
    }
}
