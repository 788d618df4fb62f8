// The fields of descriptions.
ghost use Rattle.std.specs.Prelude.{◌≡◌, map, option_and_then, codes, Some, IfSome};
ghost use Rattle.std.specs.Option.{option_map};
ghost use Rattle.serde_json.specs.Find.{get, as_str};
ghost use Rattle.vms_json.specs.Nodes.{view, members_left};
ghost use Rattle.vms_spec.specs.Sets as sets;
ghost use Rattle.vms_parts.specs.Views.{field_of as field_seen, formula_in};
ghost use Rattle.vms_descfile.specs.declared.read.sort.Sort.{Sort as TheSort};
ghost use Rattle.vms_descfile.specs.declared.read.sort.Sort.TheVariants.{Number};
ghost use Rattle.vms_json.specs.Answers.{Answers};
ghost use Rattle.vms_json.specs.Names.{names_seen};
ghost use Rattle.vms_descfile.specs.Fields.{sort_named, sort_of, counts_fit, values_fit, sort_fits, field_fits, count_as, count_of, item_as, front_seen, front_of, presence_of, field_after, field_in, field_of, former_of, plain_of, plain_members, IsPlain};

use super::sort::Sort;
use super::tests::BoxedTestIn;
use std::alloc::Global;
use vms_json::{
    Fault, Integer, ListOf, Members, NameIn, Names, Node, Reads, Scope, TextOf, U16, U32, at,
    at_or, fits, has, maybe_at, said,
};
use vms_kinds::{Item, Kind};
use vms_parts::{Count, Field, Listed, Test, Text};
use vms_words::kind_named;

const NEEDED: [&str; 2] = ["kind", "name"];

const ALLOWED: [&str; 10] = [
    "capacity", "count", "counted", "default", "equal", "former", "since", "size", "struct", "test",
];

fn sort_named(word: &str) -> Option<Sort>
    ensures { result ≡ sort_named word.now }
{
    if word == "unused" {
        Some(Sort::Unused)
    } else if word == "struct" {
        Some(Sort::Struct)
    } else {
        kind_named(word).map(Sort::Number)
    }
}

// A reader of a field's kind.
#[derive(Clone, Copy)]
struct SortOf;

impl Reads for SortOf {
    type Out = Sort;

    ghost Meaning = { TheSort };

    ghost means = { λ sort. sort };

    ghost says = { λ _. sort_of };

    fn read(&self, alloc: Global, value: &Node) -> Result<Sort, Fault> {
        match value.as_str().and_then(sort_named) {
            Some(sort) => Ok(sort),
            None => Err(Fault::here(alloc)),
        }
    }
}

// An array has either a fixed length, or a field that counts it and a capacity.
fn counts_fit(value: &Node) -> bool
    ensures { result ≡ counts_fit (view value.now) }
{
    if has(value, "counted") {
        has(value, "capacity") && !has(value, "count")
    } else {
        !has(value, "capacity")
    }
}

// A constant has no default.
fn values_fit(value: &Node) -> bool
    ensures { result ≡ values_fit (view value.now) }
{
    !(has(value, "equal") && has(value, "default"))
}

// The keys that depend on the kind.
fn sort_fits(sort: Option<Sort>, value: &Node) -> bool
    ensures { result ≡ sort_fits sort (view value.now) }
{
    match sort {
        None => true,
        Some(Sort::Number(_)) => !has(value, "size") && !has(value, "struct"),
        Some(Sort::Unused) => {
            has(value, "size")
                && !has(value, "struct")
                && !has(value, "equal")
                && !has(value, "default")
        }
        Some(Sort::Struct) => {
            has(value, "struct")
                && !has(value, "size")
                && !has(value, "equal")
                && !has(value, "default")
        }
    }
}

fn sort_in(value: &Node) -> Option<Sort>
    ensures { result
        ≡ option_and_then sort_named
        (option_and_then as_str (get (codes "kind") (view value.now))) }
{
    value
        .get("kind")
        .and_then(Node::as_str)
        .and_then(sort_named)
}

fn field_fits(value: &Node) -> bool
    ensures { result ≡ field_fits (view value.now) }
{
    fits(value, &NEEDED, &ALLOWED)
        && counts_fit(value)
        && values_fit(value)
        && sort_fits(sort_in(value), value)
}

fn count_as(capacity: Option<u32>, count: Option<u32>, counted: Option<u32>) -> Count
    ensures { result ≡ count_as capacity count counted }
{
    match counted {
        Some(by) => Count::Counted {
            by,
            capacity: capacity.unwrap_or(0),
        },
        None => match count {
            Some(length) => Count::Fixed(length),
            None => Count::One,
        },
    }
}

fn read_count(alloc: Global, names: Names, value: &Node) -> Result<Count, Fault>
    ensures { Answers (λ c. c) (count_of (names_seen names.entry) (view value.now)) result }
{
    let capacity = maybe_at(alloc, &U32, "capacity", value)?;
    let count = maybe_at(alloc, &U32, "count", value)?;
    let counted = maybe_at(alloc, &NameIn(names), "counted", value)?;
    Ok(count_as(capacity, count, counted))
}

// Returns the item of a kind, with the values under `equal`, `size` and `struct`.
fn item_as(sort: Sort, equal: Option<i128>, size: Option<u16>, number: Option<u32>) -> Item
    ensures { result ≡ item_as sort equal size number }
{
    match sort {
        Sort::Number(kind) => match equal {
            Some(value) => Item::Equal { kind, value },
            None => Item::Num(kind),
        },
        Sort::Unused => Item::Unused {
            bytes: size.unwrap_or(0),
        },
        Sort::Struct => Item::Struct(number.unwrap_or(0)),
    }
}

// The members before the kind, in the order of their keys.
#[derive(Drop)]
pub(crate) struct Front {
    count: Count,
    default: i128,
    equal: Option<i128>,
    former: Listed<Text>,
}

// Reads the names under `former`, if there are any.
fn read_former(alloc: Global, former: Option<Node>) -> Result<Listed<Text>, Fault>
    ensures { Answers (λ names. names) (former_of (option_map view former.entry)) result }
{
    match former {
        Some(names) => said(alloc, &ListOf(TextOf), "former", &names),
        None => Ok(Listed::new(Vec::new(alloc))),
    }
}

fn read_front(alloc: Global, names: Names, value: &Node) -> Result<Front, Fault>
    ensures { Answers front_seen (front_of (names_seen names.entry) (view value.now)) result }
{
    let count = read_count(alloc, names, value)?;
    let default = at_or(alloc, &Integer, "default", value, 0)?;
    let equal = maybe_at(alloc, &Integer, "equal", value)?;
    let former = read_former(alloc, value.get("former"))?;
    Ok(Front {
        count,
        default,
        equal,
        former,
    })
}

// Reads the test by which a field is present.
#[inline(always)]
fn read_presence(alloc: Global, names: Names, value: &Node) -> Result<Option<Box<Test>>, Fault>
    ensures { Answers (option_map formula_in)
        (presence_of (names_seen names.entry) (view value.now)) result }
{
    let scope = Scope {
        own: names,
        parent: None,
    };
    maybe_at(alloc, &BoxedTestIn(scope), "test", value)
}

// Reads the kind and the members after it.
fn read_after(alloc: Global, names: Names, front: Front, value: &Node) -> Result<Field, Fault>
    ensures { Answers field_seen (field_after (names_seen names.entry) (front_seen front)
        (view value.now)) result }
{
    let sort = at(alloc, &SortOf, "kind", value)?;
    let name = at(alloc, &TextOf, "name", value)?;
    let since = at_or(alloc, &U32, "since", value, 0)?;
    let size = maybe_at(alloc, &U16, "size", value)?;
    let number = maybe_at(alloc, &U32, "struct", value)?;
    let test = read_presence(alloc, names, value)?;
    Ok(Field {
        name,
        former: front.former,
        item: item_as(sort, front.equal, size, number),
        count: front.count,
        since,
        test,
        default: front.default,
    })
}

fn read_field(alloc: Global, names: Names, value: &Node) -> Result<Field, Fault>
    ensures { Answers field_seen (field_in (names_seen names.entry) (view value.now)) result }
{
    let front = read_front(alloc, names, value)?;
    read_after(alloc, names, front, value)
}

// A field with a kind of number, a name and at most former names, as most have.
#[derive(Clone, Copy)]
struct Plain<'t, 'a> {
    former: Option<Node<'t, 'a>>,
    kind: Kind,
    name: &'a str,
}

fn plain_in<'t, 'a>(value: Node<'t, 'a>) -> Option<Plain<'t, 'a>>
    ensures { IfSome result
        (λ p. IsPlain (option_map view p.former) p.kind p.name.now (view value.entry)) }
{
    let members = value.as_members()?;
    let seen = seen_in(members)?;
    let kind = seen.kind?;
    let name = seen.name?;
    let number = number_kind(&kind)?;
    let text = name.as_str()?;
    Some(Plain {
        former: seen.former,
        kind: number,
        name: text,
    })
}

// The members of such a field.
#[derive(Clone, Copy)]
struct Seen<'t, 'a> {
    former: Option<Node<'t, 'a>>,
    kind: Option<Node<'t, 'a>>,
    name: Option<Node<'t, 'a>>,
}

// Returns the members by their keys, or `None` if one has another key.
fn seen_in<'t, 'a>(mut members: Members<'t, 'a>) -> Option<Seen<'t, 'a>>
    ensures { IfSome result (λ s. members_left members.entry
        ≡ plain_members (option_map view s.former) (option_map view s.kind)
        (option_map view s.name)) }
{
    let mut former = None;
    let mut kind = None;
    let mut name = None;
    while let Some((key, member)) = members.next() {
        if key == "former" {
            former = Some(member);
        } else if key == "kind" {
            kind = Some(member);
        } else if key == "name" {
            name = Some(member);
        } else {
            return None;
        }
    }
    Some(Seen { former, kind, name })
}

fn number_kind(value: &Node) -> Option<Kind>
    ensures { IfSome result (λ kind.
        option_and_then sort_named (as_str (view value.now)) ≡ Some (Number kind)) }
{
    let word = value.as_str()?;
    kind_named(word)
}

fn plain_field(alloc: Global, plain: Plain) -> Result<Field, Fault>
    ensures { Answers field_seen (plain_of (option_map view plain.entry.former) plain.entry.kind
        plain.entry.name.now) result }
{
    let former = read_former(alloc, plain.former)?;
    Ok(Field {
        name: Text::copied(alloc, plain.name)?,
        former,
        item: Item::Num(plain.kind),
        count: Count::One,
        since: 0,
        test: None,
        default: 0,
    })
}

// A reader of a field, whose test and count may name fields.
#[derive(Clone, Copy)]
pub(crate) struct FieldIn<'a>(pub(crate) Names<'a>);

impl<'a> Reads for FieldIn<'a> {
    type Out = Field;

    ghost Meaning = { sets.Field };

    ghost means = { field_seen };

    ghost says = { λ s. field_of (names_seen s.0) };

    fn read(&self, alloc: Global, value: &Node) -> Result<Field, Fault> {
        if let Some(plain) = plain_in(*value) {
            return plain_field(alloc, plain);
        }
        if field_fits(value) {
            read_field(alloc, self.0, value)
        } else {
            Err(Fault::here(alloc))
        }
    }
}
