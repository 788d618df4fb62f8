// Descriptions and structures.
ghost use Rattle.std.specs.Prelude.{◌≡◌, map};
ghost use Rattle.vms_json.specs.Nodes.{view};
ghost use Rattle.vms_spec.specs.Sets as sets;
ghost use Rattle.vms_parts.specs.Views.{formula, desc_of as desc_seen};
ghost use Rattle.vms_json.specs.Answers.{Answers};
ghost use Rattle.vms_json.specs.Names.{names_seen, names_if};
ghost use Rattle.vms_descfile.specs.Descs.{head_of, head_seen, desc_as, rest_of, struct_in, struct_of};

use super::fields::FieldIn;
use super::tests::TestIn;
use std::alloc::Global;
use vms_json::{
    Fault, FieldNames, ListOf, Names, Node, Reads, Scope, TextOf, U32, at, at_or, fits, is_asked,
    maybe_at,
};
use vms_parts::{Desc, Field, Listed, Test, Text};

// The members of a description up to its name, in the order of their keys.
#[derive(Drop)]
pub(crate) struct Head {
    fields: Listed<Field>,
    minimum: Option<u32>,
    name: Text,
}

pub(crate) fn read_head(alloc: Global, names: Names, value: &Node) -> Result<Head, Fault>
    ensures { Answers head_seen (head_of (names_seen names.entry) (view value.now)) result }
{
    let fields = at(alloc, &ListOf(FieldIn(names)), "fields", value)?;
    let minimum = maybe_at(alloc, &U32, "minimum", value)?;
    let name = at(alloc, &TextOf, "name", value)?;
    Ok(Head {
        fields,
        minimum,
        name,
    })
}

// Reads the members after the name.
pub(crate) fn read_rest(
    alloc: Global,
    names: Names,
    head: Head,
    value: &Node,
) -> Result<Desc, Fault>
    ensures { Answers desc_seen (rest_of (names_seen names.entry) (head_seen head)
        (view value.now)) result }
{
    let scope = Scope {
        own: names,
        parent: None,
    };
    let none = Listed::new(Vec::new(alloc));
    let validate = at_or(alloc, &ListOf(TestIn(scope)), "validate", value, none)?;
    let version = at(alloc, &U32, "version", value)?;
    Ok(desc_as(head, validate, version))
}

fn desc_as(head: Head, validate: Listed<Test>, version: u32) -> Desc
    ensures { desc_seen result ≡ desc_as (head_seen head) (map formula validate) version }
{
    Desc {
        name: head.name,
        version,
        minimum: head.minimum.unwrap_or(version),
        fields: head.fields,
        validate,
    }
}

// A reader of a structure. `asks` says whether names are looked up.
#[derive(Clone, Copy)]
pub(crate) struct StructOf {
    pub(crate) asks: bool,
}

impl Reads for StructOf {
    type Out = Desc;

    ghost Meaning = { sets.Desc };

    ghost means = { desc_seen };

    ghost says = { λ s. struct_of s.asks };

    fn read(&self, alloc: Global, value: &Node) -> Result<Desc, Fault> {
        if fits(
            value,
            &["fields", "name", "version"],
            &["minimum", "validate"],
        ) {
            read_asked(alloc, self.asks, value)
        } else {
            Err(Fault::here(alloc))
        }
    }
}

fn read_asked(alloc: Global, asks: bool, value: &Node) -> Result<Desc, Fault>
    ensures { Answers desc_seen (struct_in (names_if asks (view value.now)) (view value.now))
        result }
{
    if is_asked(asks, value) {
        let names = FieldNames::of(alloc, value)?;
        read_struct(alloc, Some(&names), value)
    } else {
        read_struct(alloc, None, value)
    }
}

fn read_struct(alloc: Global, names: Names, value: &Node) -> Result<Desc, Fault>
    ensures { Answers desc_seen (struct_in (names_seen names.entry) (view value.now)) result }
{
    let head = read_head(alloc, names, value)?;
    read_rest(alloc, names, head, value)
}
