// The entries of a file's tables.

use anyhow::{Context, Result, bail};
use std::collections::btree_map::Keys;
use toml::{Table, Value};

/// A table of a topic's file.
#[derive(Clone, Copy)]
pub(crate) struct Entry<'a> {
    table: &'a Table,
}

impl<'a> Entry<'a> {
    pub(crate) fn new(table: &'a Table) -> Entry<'a> {
        Entry { table }
    }

    /// Returns the entry of `value`, which must be a table.
    pub(crate) fn of(value: &'a Value) -> Result<Entry<'a>> {
        let table = value.as_table().context("no table in a list")?;
        Ok(Entry { table })
    }

    /// Refuses a table that has a key which isn't among `keys`.
    pub(crate) fn has_only(&self, keys: &[&str]) -> Result<()> {
        for key in self.table.keys() {
            if !keys.iter().any(|known| *known == key.as_str()) {
                bail!("no such key: {key}");
            }
        }
        Ok(())
    }

    /// Returns the keys of the table, in order.
    pub(crate) fn names(&self) -> Keys<'a, String, Value> {
        self.table.keys()
    }

    pub(crate) fn has(&self, key: &str) -> bool {
        self.table.contains_key(key)
    }

    pub(crate) fn text(&self, key: &str) -> Result<Option<&'a str>> {
        match self.table.get(key) {
            None => Ok(None),
            Some(Value::String(text)) => Ok(Some(text.as_str())),
            Some(_) => bail!("no text: {key}"),
        }
    }

    pub(crate) fn flag(&self, key: &str) -> Result<bool> {
        match self.table.get(key) {
            None => Ok(false),
            Some(Value::Boolean(flag)) => Ok(*flag),
            Some(_) => bail!("neither true nor false: {key}"),
        }
    }

    pub(crate) fn number(&self, key: &str) -> Result<Option<u32>> {
        match self.table.get(key) {
            None => Ok(None),
            Some(value) => Ok(Some(number(value)?)),
        }
    }

    /// Appends the texts of the list `key` to `texts`.
    pub(crate) fn add_texts(&self, key: &str, texts: &mut Vec<&'a str>) -> Result<()> {
        for value in self.list(key)? {
            texts.push(value.as_str().context("no text in a list")?)?;
        }
        Ok(())
    }

    pub(crate) fn entry(&self, key: &str) -> Result<Option<Entry<'a>>> {
        match self.table.get(key) {
            None => Ok(None),
            Some(Value::Table(table)) => Ok(Some(Entry { table })),
            Some(_) => bail!("no table: {key}"),
        }
    }

    /// Returns the list `key`, or an empty one if there is no such key.
    pub(crate) fn list(&self, key: &str) -> Result<&'a [Value]> {
        match self.table.get(key) {
            None => Ok(&[]),
            Some(Value::Array(values)) => Ok(values.as_slice()),
            Some(_) => bail!("no list: {key}"),
        }
    }
}

/// Returns `value` as a number.
pub(crate) fn number(value: &Value) -> Result<u32> {
    match value {
        Value::Integer(number) => u32::try_from(*number).ok().context("out of range"),
        _ => bail!("no number"),
    }
}
