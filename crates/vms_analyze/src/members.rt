// The members of JSON objects. If there is no such member, the fault is [`Unread::Shape`].
ghost use Rattle.std.specs.Prelude.{◌≡◌};
ghost use Rattle.std.specs.List.{list_all};
ghost use Rattle.serde_json.specs.Find.{as_bool, as_str};
ghost use Rattle.serde_json.specs.View.{number_view};
ghost use Rattle.vms_json.specs.Nodes.{view, items_left};
ghost use Rattle.vms_analyze.specs.Told.{is_path, is_path_byte};
ghost use Rattle.vms_analyze.specs.Read.{flag_at, four_at, list_at, natural_at, natural_of, path_at, path_of, text_at, whole_at, whole_of};
ghost use Rattle.vms_analyze.specs.Typed.{ReadsAs};

use serde_json::Number;
use std::alloc::{AllocError, AllocFailed};
use vms_json::{Items, Node};
use vms_words::is_name_byte;

/// Why a value isn't read.
#[derive(Clone, Copy, Drop)]
pub(crate) enum Unread {
    /// It has another shape.
    Shape,
    /// Out of memory.
    NoMemory,
}

impl From<AllocError> for Unread {
    ghost use Rattle.vms_analyze.specs.declared.members.Unread.TheVariants.{NoMemory};

    ghost from_gives = { λ _ e. e ≡ NoMemory };

    fn from(_: AllocError) -> Self {
        Unread::NoMemory
    }
}

impl<T: Drop> From<AllocFailed<T>> for Unread {
    ghost use Rattle.vms_analyze.specs.declared.members.Unread.TheVariants.{NoMemory};

    ghost from_gives = { λ _ e. e ≡ NoMemory };

    fn from(_: AllocFailed<T>) -> Self {
        Unread::NoMemory
    }
}

/// Returns the text of `value`.
pub(crate) fn text_of<'a>(value: &Node<'_, 'a>) -> Result<&'a str, Unread>
    ensures { ReadsAs (λ t. t.now) (as_str (view value.now)) result }
{
    match value.as_str() {
        Some(text) => Ok(text),
        None => Err(Unread::Shape),
    }
}

/// Returns the text under `key`.
pub(crate) fn text_at<'a>(value: &Node<'_, 'a>, key: &str) -> Result<&'a str, Unread>
    ensures { ReadsAs (λ t. t.now) (text_at key.now (view value.now)) result }
{
    match value.get(key).and_then(Node::as_str) {
        Some(text) => Ok(text),
        None => Err(Unread::Shape),
    }
}

/// Returns `text`, if it is a path or name of 1 to `most` bytes.
pub(crate) fn path_of(text: &str, most: usize) -> Result<&str, Unread>
    ensures { ReadsAs (λ t. t.now) (path_of most text.now) result }
{
    if is_path(text, most) {
        Ok(text)
    } else {
        Err(Unread::Shape)
    }
}

/// Returns the path or name under `key`, of 1 to `most` bytes.
pub(crate) fn path_at<'a>(value: &Node<'_, 'a>, key: &str, most: usize) -> Result<&'a str, Unread>
    ensures { ReadsAs (λ t. t.now) (path_at most key.now (view value.now)) result }
{
    let text = text_at(value, key)?;
    path_of(text, most)
}

/// Returns the number without a sign of `value`.
pub(crate) fn natural_of(value: &Node) -> Result<u64, Unread>
    ensures { ReadsAs (λ n. n) (natural_of (view value.now)) result }
{
    match value.as_u64() {
        Some(number) => Ok(number),
        None => Err(Unread::Shape),
    }
}

/// Returns the number without a sign under `key`.
pub(crate) fn natural_at(value: &Node, key: &str) -> Result<u64, Unread>
    ensures { ReadsAs (λ n. n) (natural_at key.now (view value.now)) result }
{
    match value.get(key).and_then(Node::as_u64) {
        Some(number) => Ok(number),
        None => Err(Unread::Shape),
    }
}

/// Returns the number of four bytes under `key`.
pub(crate) fn four_at(value: &Node, key: &str) -> Result<u32, Unread>
    ensures { ReadsAs (λ n. n) (four_at key.now (view value.now)) result }
{
    let number = natural_at(value, key)?;
    if number <= u32::MAX as u64 {
        Ok(number as u32)
    } else {
        Err(Unread::Shape)
    }
}

/// Returns the whole number under `key`.
pub(crate) fn whole_at(value: &Node, key: &str) -> Result<i128, Unread>
    ensures { ReadsAs (λ z. z) (whole_at key.now (view value.now)) result }
{
    match value.get(key).and_then(Node::as_number).and_then(whole_of) {
        Some(number) => Ok(number),
        None => Err(Unread::Shape),
    }
}

/// Returns whether the flag under `key` is set.
pub(crate) fn flag_at(value: &Node, key: &str) -> Result<bool, Unread>
    ensures { ReadsAs (λ b. b) (flag_at key.now (view value.now)) result }
{
    match value.get(key).and_then(Node::as_bool) {
        Some(flag) => Ok(flag),
        None => Err(Unread::Shape),
    }
}

/// Returns the items of the list under `key`.
pub(crate) fn list_at<'t, 'a>(value: &Node<'t, 'a>, key: &str) -> Result<Items<'t, 'a>, Unread>
    ensures { ReadsAs (λ v. items_left v) (list_at key.now (view value.now)) result }
{
    match value.get(key).and_then(Node::as_list) {
        Some(items) => Ok(items),
        None => Err(Unread::Shape),
    }
}

// Returns a whole number: one without a sign, or one below 0.
fn whole_of(number: &Number) -> Option<i128>
    ensures { result ≡ whole_of (number_view number.now) }
{
    if let Some(number) = number.as_u64() {
        return Some(i128::from(number));
    }
    match number.as_i128() {
        Some(number) if number < 0 => Some(number),
        _ => None,
    }
}

// Returns whether `text` is a path or a name of 1 to `most` bytes.
fn is_path(text: &str, most: usize) -> bool
    ensures { result ≡ is_path most text.now }
{
    !text.is_empty() && text.len() <= most && are_path_bytes(text.as_bytes())
}

fn are_path_bytes(bytes: &[u8]) -> bool
    ensures { result ≡ list_all is_path_byte bytes.now }
{
    bytes.iter().all(|byte| is_path_byte(*byte))
}

// Returns whether `byte` is a letter, a digit, or one of these.
fn is_path_byte(byte: u8) -> bool
    ensures { result ≡ is_path_byte byte }
{
    is_name_byte(byte) || matches!(byte, b'[' | b']' | b'/')
}
