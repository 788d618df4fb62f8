// Rows of bytes: hexadecimal; `$NAME` for a row of the topic; `@NAME` for a file, or for the output of an earlier
// case; and parts of these.

use crate::entry::Entry;
use anyhow::{Context, Result};
use std::alloc::Global;
use std::collections::BTreeMap;

/// Bytes by name.
pub(crate) type Named = BTreeMap<String, Vec<u8>>;

/// What rows of bytes may name.
#[derive(Drop)]
pub(crate) struct Known<'a> {
    /// The rows of the topic.
    pub rows: Option<Entry<'a>>,
    /// The files of the topic, and the outputs of the cases so far.
    pub outs: Named,
}

impl Known<'_> {
    /// Appends the bytes of `row` to `bytes`.
    pub(crate) fn add(&self, alloc: Global, row: &str, bytes: &mut Vec<u8>) -> Result<()> {
        for part in row.split_ascii_whitespace() {
            self.add_part(alloc, part, bytes)?;
        }
        Ok(())
    }

    fn add_part(&self, alloc: Global, part: &str, bytes: &mut Vec<u8>) -> Result<()> {
        let (name, range) = part.split_once('[').unwrap_or((part, ""));
        if let Some(name) = name.strip_prefix('$') {
            return self.add_row(alloc, name, range, bytes);
        }
        if let Some(name) = name.strip_prefix('@') {
            let out = self.outs.get(name);
            let out = out.context(format_args!("no file or earlier case {name}"))?;
            bytes.extend_from_slice(within(out, range)?)?;
            return Ok(());
        }
        add_digits(alloc, part, bytes)
    }

    fn add_row(&self, alloc: Global, name: &str, range: &str, bytes: &mut Vec<u8>) -> Result<()> {
        let row = self.row(name)?.context(format_args!("no row {name}"))?;
        let mut whole = Vec::new(alloc);
        add_digits(alloc, row, &mut whole)?;
        bytes.extend_from_slice(within(&whole, range)?)?;
        Ok(())
    }

    fn row(&self, name: &str) -> Result<Option<&str>> {
        match &self.rows {
            Some(rows) => rows.text(name),
            None => Ok(None),
        }
    }
}

// Appends the bytes of hexadecimal digits with spaces.
fn add_digits(alloc: Global, row: &str, bytes: &mut Vec<u8>) -> Result<()> {
    for digits in row.split_ascii_whitespace() {
        bytes.extend_from_slice(hex::decode(alloc, digits)?.as_slice())?;
    }
    Ok(())
}

// Returns the bytes from the first number to before the second, as in `2..5]`, or all of them if no range is given.
fn within<'a>(bytes: &'a [u8], range: &str) -> Result<&'a [u8]> {
    if range.is_empty() {
        return Ok(bytes);
    }
    let range = range.strip_suffix(']').context("no ] at the end")?;
    let (from, to) = range.split_once("..").context("no .. in a range")?;
    let from = bound(from, 0)?;
    let to = bound(to, bytes.len())?;
    bytes
        .get(from..to)
        .context(format_args!("no such range: {range}"))
}

fn bound(digits: &str, default: usize) -> Result<usize> {
    if digits.is_empty() {
        return Ok(default);
    }
    Ok(digits.parse::<usize>()?)
}
