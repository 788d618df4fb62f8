// The forms of tests, and tests on numbers.
ghost use Rattle.std.specs.Prelude.{◌≡◌, Option, Some, None, IfSome};
ghost use Rattle.vms_json.specs.Nodes.{view};
ghost use Rattle.vms_spec.specs.Sets as sets;
ghost use Rattle.vms_spec.specs.declared.Rel.{Rel as TheRel};
ghost use Rattle.vms_parts.specs.Views.{formula};
ghost use Rattle.vms_json.specs.Answers.{Answers};
ghost use Rattle.vms_json.specs.Names.{scope_seen, names_seen};
ghost use Rattle.vms_descfile.specs.Tests.{form_of, key_of, rel_named, rel_of, own_cell, own_seen, own_said, parent_cell};

use std::alloc::Global;
use vms_json::{Fault, NameIn, Names, Node, Reads, Scope, U64, at, fits, said};
use vms_parts::{Rel, Test, Whose};

// The form of a test, by its keys.
#[derive(Clone, Copy)]
pub(crate) enum Form {
    Leaf(Leaf),
    Not,
    Two(Join),
}

// A test that contains no other, or no test.
#[derive(Clone, Copy)]
pub(crate) enum Leaf {
    AtLeast,
    Below,
    Own,
    Parent,
    None,
}

// A test that contains two others.
#[derive(Clone, Copy)]
pub(crate) enum Join {
    And,
    Or,
}

impl Join {
    pub(crate) fn key(self) -> &'static str
        ensures { result.now ≡ key_of self }
    {
        match self {
            Join::And => "and",
            Join::Or => "or",
        }
    }
}

pub(crate) fn form_of(value: &Node) -> Form
    ensures { result ≡ form_of (view value.now) }
{
    if fits(value, &["at_least"], &[]) {
        Form::Leaf(Leaf::AtLeast)
    } else if fits(value, &["below"], &[]) {
        Form::Leaf(Leaf::Below)
    } else if fits(value, &["is", "mask", "value", "field"], &[]) {
        Form::Leaf(Leaf::Own)
    } else if fits(value, &["is", "mask", "value", "parent"], &[]) {
        Form::Leaf(Leaf::Parent)
    } else if fits(value, &["not"], &[]) {
        Form::Not
    } else if fits(value, &["and"], &[]) {
        Form::Two(Join::And)
    } else if fits(value, &["or"], &[]) {
        Form::Two(Join::Or)
    } else {
        Form::Leaf(Leaf::None)
    }
}

fn rel_named(word: &str) -> Option<Rel>
    ensures { result ≡ rel_named word.now }
{
    if word == "eq" {
        Some(Rel::Eq)
    } else if word == "ne" {
        Some(Rel::Ne)
    } else if word == "lt" {
        Some(Rel::Lt)
    } else if word == "ge" {
        Some(Rel::Ge)
    } else {
        None
    }
}

// A reader of a relation.
#[derive(Clone, Copy)]
struct RelOf;

impl Reads for RelOf {
    type Out = Rel;

    ghost Meaning = { TheRel };

    ghost means = { λ rel. rel };

    ghost says = { λ _. rel_of };

    fn read(&self, alloc: Global, value: &Node) -> Result<Rel, Fault> {
        match value.as_str().and_then(rel_named) {
            Some(rel) => Ok(rel),
            None => Err(Fault::here(alloc)),
        }
    }
}

// The members of a test of a number of the description.
#[derive(Clone, Copy)]
pub(crate) struct OwnCell<'t, 'a> {
    field: Node<'t, 'a>,
    rel: Node<'t, 'a>,
    mask: Node<'t, 'a>,
    value: Node<'t, 'a>,
}

// Returns the members if each key is there once and in the order in which files are written.
pub(crate) fn own_in<'t, 'a>(value: &Node<'t, 'a>) -> Option<OwnCell<'t, 'a>>
    ensures { IfSome result (λ own. view value.now ≡ own_seen own) }
{
    let mut members = value.as_members()?;
    let field = members.next_of("field")?;
    let rel = members.next_of("is")?;
    let mask = members.next_of("mask")?;
    let number = members.next_of("value")?;
    if members.next().is_some() {
        return None;
    }
    Some(OwnCell {
        field,
        rel,
        mask,
        value: number,
    })
}

#[inline(always)]
fn test_on(whose: Whose, field: u32, rel: Rel, mask: u64, value: u64) -> Test
    ensures { formula result ≡ sets.Cell whose field mask rel value }
{
    Test::Cell {
        whose,
        field,
        rel,
        mask,
        value,
    }
}

// Reads a test of a number of the description from its members.
pub(crate) fn read_own_cell(alloc: Global, scope: Scope, own: OwnCell) -> Result<Test, Fault>
    ensures { Answers formula (own_said (scope_seen scope.entry) own.entry) result }
{
    let field = said(alloc, &NameIn(scope.own), "field", &own.field)?;
    let rel = said(alloc, &RelOf, "is", &own.rel)?;
    let mask = said(alloc, &U64, "mask", &own.mask)?;
    let number = said(alloc, &U64, "value", &own.value)?;
    Ok(test_on(Whose::Own, field, rel, mask, number))
}

// Reads the same by its keys, in any order.
pub(crate) fn read_own(alloc: Global, scope: Scope, value: &Node) -> Result<Test, Fault>
    ensures { Answers formula (own_cell (scope_seen scope.entry) (view value.now)) result }
{
    let field = at(alloc, &NameIn(scope.own), "field", value)?;
    let rel = at(alloc, &RelOf, "is", value)?;
    let mask = at(alloc, &U64, "mask", value)?;
    let number = at(alloc, &U64, "value", value)?;
    Ok(test_on(Whose::Own, field, rel, mask, number))
}

// Reads a test of a number of the device.
pub(crate) fn read_parent(alloc: Global, names: Names, value: &Node) -> Result<Test, Fault>
    ensures { Answers formula (parent_cell (names_seen names.entry) (view value.now)) result }
{
    let rel = at(alloc, &RelOf, "is", value)?;
    let mask = at(alloc, &U64, "mask", value)?;
    let field = at(alloc, &NameIn(names), "parent", value)?;
    let number = at(alloc, &U64, "value", value)?;
    Ok(test_on(Whose::Parent, field, rel, mask, number))
}
