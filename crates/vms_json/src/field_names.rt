// The names of a description's fields, which tests and counts refer to.
ghost use Rattle.std.specs.Prelude.{◌≡◌, List, ℕ, Some, Option, IfOk, OnOk, codes, option_and_then};
ghost use Rattle.vms_spec.specs.Lists.{or_else};
ghost use Rattle.serde_json.specs.Find.{get, as_str};
ghost use Rattle.vms_json.specs.Nodes.{view, items_left};
ghost use Rattle.vms_json.specs.Index.{names_in, names_of, text_or_none, first_of, number_of, numbers, IsIndex, at_name};

use crate::node::{Items, Node};
use std::alloc::{AllocError, Global};
use std::collections::BTreeMap;

/// An index of a description's fields: for each name the number of the first field that has it.
#[derive(Drop)]
pub struct FieldNames {
    first: BTreeMap<String, usize>,
}

impl FieldNames {
    /// Returns the index of the fields of the description `value`.
    ///
    /// # Errors
    ///
    /// - [`AllocError`]: out of memory.
    pub fn of(alloc: Global, value: &Node) -> Result<FieldNames, AllocError>
        ensures { IfOk result (λ names. numbers names ≡ first_of (names_in (view value.now))) }
    {
        let first = index_in(alloc, value)?;
        Ok(FieldNames { first })
    }

    /// Returns the number of the first field with this `name`, or `None` if there is none.
    pub fn find(&self, name: &str) -> Option<usize>
        ensures { result ≡ numbers self.now name.now }
    {
        self.first.get(name).copied()
    }
}

fn index_in(alloc: Global, value: &Node) -> Result<BTreeMap<String, usize>, AllocError>
    ensures { IfOk result (λ first. IsIndex first (names_in (view value.now))) }
{
    match value.get("fields").and_then(Node::as_list) {
        Some(fields) => index_of(alloc, fields),
        None => Ok(BTreeMap::new(alloc)),
    }
}

fn index_of(alloc: Global, mut fields: Items) -> Result<BTreeMap<String, usize>, AllocError>
    ensures { IfOk result (λ first. IsIndex first (names_of (items_left fields.entry))) }
{
    let mut first = BTreeMap::new(alloc);
    let mut i = 0;
    while let Some(field) = fields.next() {
        put_first(alloc, &mut first, name_of(&field), i)?;
        i += 1;
    }
    Ok(first)
}

// Adds a name with its number, unless the name is there.
fn put_first(
    alloc: Global,
    first: &mut BTreeMap<String, usize>,
    name: &str,
    number: usize,
) -> Result<(), AllocError>
    ensures { OnOk result ((q : List ℕ) → number_of first.new q
        ≡ or_else (number_of first.old q) (at_name name.now number q)) }
{
    if !first.contains_key(name) {
        first.insert(String::from_str(alloc, name)?, number)?;
    }
    Ok(())
}

fn name_of<'a>(field: &Node<'_, 'a>) -> &'a str
    ensures { result.now
        ≡ text_or_none (option_and_then as_str (get (codes "name") (view field.now))) }
{
    match field.get("name").and_then(Node::as_str) {
        Some(name) => name,
        None => "",
    }
}
