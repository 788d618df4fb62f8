// The contents of a shelf.

use crate::bytes::{Known, Named};
use crate::entry::Entry;
use anyhow::{Context, Result};
use std::alloc::Global;

/// Copies all of `named` into `copy`, under the same names.
pub(crate) fn copy(alloc: Global, named: &Named, copy: &mut Named) -> Result<()> {
    for (name, bytes) in named {
        put_copy(alloc, copy, name.as_str(), bytes)?;
    }
    Ok(())
}

/// Puts a copy of `bytes` into `named`, as `name`.
pub(crate) fn put_copy(alloc: Global, named: &mut Named, name: &str, bytes: &[u8]) -> Result<()> {
    put(alloc, named, name, bytes.to_vec(alloc)?)
}

/// Puts `bytes` into `named`, as `name`.
pub(crate) fn put(alloc: Global, named: &mut Named, name: &str, bytes: Vec<u8>) -> Result<()> {
    let name = String::from_str(alloc, name)?;
    named.insert(name, bytes)?;
    Ok(())
}

/// Puts the contents `before` and what `table` names on `shelf`.
pub(crate) fn put_beside(
    alloc: Global,
    known: &Known,
    table: Option<Entry>,
    before: &Named,
    shelf: &mut Named,
) -> Result<()> {
    copy(alloc, before, shelf)?;
    put_all(alloc, known, table, shelf)
}

/// Puts what `table` names on `shelf`.
pub(crate) fn put_all(
    alloc: Global,
    known: &Known,
    table: Option<Entry>,
    shelf: &mut Named,
) -> Result<()> {
    if let Some(table) = table {
        for name in table.names() {
            put_content(alloc, known, table, name, shelf)?;
        }
    }
    Ok(())
}

fn put_content(
    alloc: Global,
    known: &Known,
    table: Entry,
    name: &str,
    shelf: &mut Named,
) -> Result<()> {
    let content = table.entry(name)?.context("nothing under a name")?;
    let mut bytes = Vec::new(alloc);
    add_content(alloc, known, content, &mut bytes)?;
    put(alloc, shelf, name, bytes)
}

// Appends what a content means, as often as it says.
fn add_content(alloc: Global, known: &Known, content: Entry, bytes: &mut Vec<u8>) -> Result<()> {
    content.has_only(&["text", "bytes", "times"])?;
    let times = content.number("times")?.unwrap_or(1);
    let mut once = Vec::new(alloc);
    add_either(alloc, known, content, ["bytes", "text"], &mut once)?;
    for _ in 0..times {
        bytes.extend_from_slice(&once)?;
    }
    Ok(())
}

/// Appends a row of bytes, if the first key is there, or else the text of the second key.
pub(crate) fn add_either(
    alloc: Global,
    known: &Known,
    content: Entry,
    keys: [&str; 2],
    bytes: &mut Vec<u8>,
) -> Result<()> {
    let [row, text] = keys;
    if let Some(row) = content.text(row)? {
        return known.add(alloc, row, bytes);
    }
    let text = content.text(text)?.unwrap_or("");
    bytes.extend_from_slice(text.as_bytes())?;
    Ok(())
}
