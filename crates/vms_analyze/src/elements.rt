// The elements in a description.
ghost use Rattle.std.specs.Prelude.{◌≡◌, ◌||◌, ◌==◌, map, Some, IfSome};
ghost use Rattle.std.specs.List.{list_all};
ghost use Rattle.vms_json.specs.Nodes.{view};
ghost use Rattle.vms_analyze.specs.Told.{Told, is_kept};
ghost use Rattle.vms_analyze.specs.Read.{element_in, elements_in, kept_in, sent_as, sent_in, unprinted};
ghost use Rattle.vms_words.specs.Words.{kind_named};
ghost use Rattle.vms_analyze.specs.Typed.{ReadsAs, in_order_said, in_order_seen, told_of};

use crate::each::{Reads, each};
use crate::members::{
    Unread, list_at, natural_at, natural_of, path_at, path_of, text_at, text_of, whole_at,
};
use crate::told::Element;
use std::alloc::Global;
use vms_json::{Node, fits};
use vms_spec::MOST_UNUSED;
use vms_words::kind_named;

/// The most bytes of a path.
const LONGEST_PATH: usize = 300;

/// Returns the elements of a device or a subsection.
///
/// # Errors
///
/// - [`Unread::Shape`]: the value has another shape.
/// - [`Unread::NoMemory`]: out of memory.
pub(crate) fn elements_in<'a>(
    alloc: Global,
    value: &Node<'_, 'a>,
) -> Result<Vec<Element<'a>>, Unread>
    ensures { ReadsAs (λ v. map told_of v.items) (elements_in (view value.now)) result }
{
    each(alloc, list_at(value, "fields")?)
}

impl<'a> Reads<'a> for Element<'a> {
    ghost Meaning = { Told };

    ghost means = { told_of };

    ghost says = { element_in };

    // The keys decide which kind of element it is.
    fn read(_: Global, value: &Node<'_, 'a>) -> Result<Self, Unread> {
        if let Some(members) = in_order(value) {
            return sent_by(&members);
        }
        if fits(value, &["name", "size", "type"], &[]) {
            sent_in(value)
        } else if fits(value, &["name", "size", "type", "value"], &[]) {
            kept_in(value)
        } else {
            Err(Unread::Shape)
        }
    }
}

// The members of an element that is in the stream.
#[derive(Clone, Copy)]
struct InOrder<'t, 'a> {
    name: Node<'t, 'a>,
    size: Node<'t, 'a>,
    word: Node<'t, 'a>,
}

// Returns the members if each key is there once and in the order in which descriptions are written.
fn in_order<'t, 'a>(value: &Node<'t, 'a>) -> Option<InOrder<'t, 'a>>
    ensures { IfSome result (λ members. view value.now ≡ in_order_seen members) }
{
    let mut members = value.as_members()?;
    let name = members.next_of("name")?;
    let size = members.next_of("size")?;
    let word = members.next_of("type")?;
    if members.next().is_some() {
        return None;
    }
    Some(InOrder { name, size, word })
}

// Reads an element that is in the stream, by its members.
fn sent_by<'a>(members: &InOrder<'_, 'a>) -> Result<Element<'a>, Unread>
    ensures { ReadsAs told_of (in_order_said members.now) result }
{
    let text = text_of(&members.name)?;
    let path = path_of(text, LONGEST_PATH)?;
    let size = natural_of(&members.size)?;
    let word = text_of(&members.word)?;
    sent_as(path, size, word)
}

// Reads the same by its keys, in any order.
fn sent_in<'a>(value: &Node<'_, 'a>) -> Result<Element<'a>, Unread>
    ensures { ReadsAs told_of (sent_in (view value.now)) result }
{
    let path = path_at(value, "name", LONGEST_PATH)?;
    let size = natural_at(value, "size")?;
    let word = text_at(value, "type")?;
    sent_as(path, size, word)
}

// Returns an element that is in the stream, by its type.
fn sent_as<'a>(path: &'a str, size: u64, word: &str) -> Result<Element<'a>, Unread>
    ensures { ReadsAs told_of (sent_as path.now size word.now (kind_named word.now)) result }
{
    match kind_named(word) {
        Some(kind) if size == kind.width() as u64 => Ok(Element::Sent { path, kind }),
        Some(_) => Err(Unread::Shape),
        None => unprinted(path, size, word),
    }
}

// Reads an element that is in the stream and isn't printed.
fn unprinted<'a>(path: &'a str, size: u64, word: &str) -> Result<Element<'a>, Unread>
    ensures { ReadsAs told_of (unprinted path.now size word.now) result }
{
    if word == "equal" {
        if matches!(size, 1 | 2 | 4 | 8) {
            return Ok(Element::Fixed {
                path,
                bytes: size as usize,
            });
        }
    } else if word == "unused" && 1 <= size && size <= u64::from(MOST_UNUSED) {
        return Ok(Element::Skipped {
            path,
            bytes: size as usize,
        });
    }
    Err(Unread::Shape)
}

// Reads a number that isn't in the stream.
fn kept_in<'a>(value: &Node<'_, 'a>) -> Result<Element<'a>, Unread>
    ensures { ReadsAs told_of (kept_in (view value.now)) result }
{
    let path = path_at(value, "name", LONGEST_PATH)?;
    let size = natural_at(value, "size")?;
    let word = text_at(value, "type")?;
    let value = whole_at(value, "value")?;
    match kind_named(word) {
        Some(kind) if size == 0 && kind.in_range(value) => Ok(Element::Kept { path, kind, value }),
        _ => Err(Unread::Shape),
    }
}

/// Returns whether none of the elements is in the stream.
pub(crate) fn are_kept(elements: &[Element]) -> bool
    ensures { result ≡ list_all is_kept (map told_of elements.now) }
{
    all_kept(elements)
}

fn all_kept(elements: &[Element]) -> bool
    ensures { result ≡ list_all (λ e. is_kept (told_of e)) elements.now }
{
    elements.iter().all(|element| is_kept(element))
}

fn is_kept(element: &Element) -> bool
    ensures { result ≡ is_kept (told_of element.now) }
{
    matches!(element, Element::Kept { .. })
}
