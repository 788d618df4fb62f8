// What the program answers.

use crate::bytes::Named;
use std::alloc::{AllocError, Global};
use std::collections::BTreeMap;

/// The status of a call, and what is outside after it.
#[derive(Drop)]
pub(crate) struct Answer {
    /// The exit status.
    pub status: u8,
    /// Standard output.
    pub out: Vec<u8>,
    /// Standard error.
    pub notes: Vec<u8>,
    /// The number of input bytes that were read, or none if it isn't compared.
    pub taken: Option<usize>,
    /// The files on the shelf.
    pub shelf: Named,
}

impl Answer {
    /// Returns an answer with status 0 and no bytes anywhere.
    pub(crate) fn new(alloc: Global) -> Answer {
        Answer {
            status: 0,
            out: Vec::new(alloc),
            notes: Vec::new(alloc),
            taken: None,
            shelf: BTreeMap::new(alloc),
        }
    }

    /// Checks whether this is the `wanted` answer. If `may_be_begun`, output and notes may be
    /// prefixes of the wanted ones.
    pub(crate) fn fits(&self, wanted: &Answer, may_be_begun: bool) -> bool {
        self.status == wanted.status
            && is_text(&self.out, &wanted.out, may_be_begun)
            && is_text(&self.notes, &wanted.notes, may_be_begun)
            && (wanted.taken.is_none() || self.taken == wanted.taken)
            && self.shelf == wanted.shelf
    }

    /// Appends the answer to `text` in a line, after `what`.
    ///
    /// # Errors
    ///
    /// [`AllocError`] if memory runs out.
    pub(crate) fn tell(
        &self,
        alloc: Global,
        what: &str,
        text: &mut String,
    ) -> Result<(), AllocError> {
        text.push_str(&format!(in alloc; "{what}status {}", self.status)?)?;
        tell_bytes(alloc, "out", &self.out, text)?;
        tell_bytes(alloc, "notes", &self.notes, text)?;
        tell_taken(alloc, self.taken, text)?;
        tell_shelf(alloc, &self.shelf, text)
    }
}

fn tell_taken(alloc: Global, taken: Option<usize>, text: &mut String) -> Result<(), AllocError> {
    if let Some(taken) = taken {
        text.push_str(&format!(in alloc; ", taken {taken}")?)?;
    }
    Ok(())
}

fn tell_shelf(alloc: Global, shelf: &Named, text: &mut String) -> Result<(), AllocError> {
    for (name, bytes) in shelf {
        tell_bytes(alloc, name.as_str(), bytes, text)?;
    }
    Ok(())
}

fn tell_bytes(
    alloc: Global,
    name: &str,
    bytes: &[u8],
    text: &mut String,
) -> Result<(), AllocError> {
    let bytes = printed(alloc, bytes)?;
    text.push_str(&format!(in alloc; ", {name} {bytes}")?)?;
    Ok(())
}

fn is_text(came: &[u8], wanted: &[u8], may_be_begun: bool) -> bool {
    came == wanted || may_be_begun && wanted.starts_with(came)
}

const LONGEST: usize = 400;

// Returns a text in quotes, other bytes in hexadecimal, and for many bytes their number.
fn printed(alloc: Global, bytes: &[u8]) -> Result<String, AllocError> {
    if bytes.len() > LONGEST {
        return format!(in alloc; "{} bytes", bytes.len());
    }
    match std::str::from_utf8(bytes) {
        Ok(text) if text.bytes().all(|byte| byte >= b' ' || byte == b'\n') => {
            format!(in alloc; "{text:?}")
        }
        _ => hex::encode(alloc, bytes),
    }
}
