// JSON values, and the members of objects.
ghost use Rattle.std.specs.List.{slice_get};
ghost use Rattle.std.specs.Prelude.{◌≡◌, ◌++◌, ◌∷◌, [], ℕ, Some, map, IfOk, OnOk};
ghost use Rattle.serde_json.specs.Data.{Data, string, put};
ghost use Rattle.serde_json.specs.View.{view, members_view};
ghost use Rattle.vms_descfile.specs.Written.{list_file, list_as, natural_file, integer_file, given_as, unless};

use serde_json::{Map, Number, Value};
use std::alloc::{AllocError, Global};
use vms_parts::Text;

// A writer of one value.
pub(crate) trait Writes<T> {
    // The JSON value that is written.
    ghost file: { Self → T → Data };

    // The numbers of the value fit their types.
    ghost fits: { Self → T → Type 0 };

    fn write(&self, alloc: Global, item: &T) -> Result<Value, AllocError>
        ensures file { IfOk result (λ v. view v ≡ file self.now item.now) }
        ensures fits { OnOk result (fits self.now item.now) };
}

pub(crate) fn text_value(alloc: Global, text: &str) -> Result<Value, AllocError>
    ensures { IfOk result (λ v. view v ≡ string text.now) }
{
    Value::try_from_str(alloc, text)
}

// A writer of a text.
#[derive(Clone, Copy)]
pub(crate) struct TextFile;

impl Writes<Text> for TextFile {
    ghost file = { λ _ text. string text };

    ghost fits = { λ _ _. Unit {0} };

    fn write(&self, alloc: Global, item: &Text) -> Result<Value, AllocError> {
        text_value(alloc, item.as_str())
    }
}

pub(crate) fn natural_value(number: u64) -> Value
    ensures { view result ≡ natural_file number }
{
    Value::from(number)
}

pub(crate) fn integer_value(number: i128) -> Value
    ensures { view result ≡ integer_file number }
{
    match Number::from_i128(number) {
        Some(number) => Value::Number(number),
        None => Value::Null,
    }
}

fn push(list: &mut Vec<Value>, value: Value) -> Result<(), AllocError>
    ensures { OnOk result (list.new.items ≡ list.old.items ++ value ∷ []) }
{
    serde_json::push(list, value)
}

fn list_value<T, W: Writes<T>>(alloc: Global, writer: &W, items: &[T]) -> Result<Value, AllocError>
    ensures file { IfOk result (λ v. view v ≡ list_file (W.file writer.now) items.now) }
    ensures fits { OnOk result ((i : ℕ) (x : T)
        → slice_get items.now i ≡ Some x → W.fits writer.now x) }
{
    Ok(Value::Array(written(alloc, writer, items)?))
}

fn written<T, W: Writes<T>>(
    alloc: Global,
    writer: &W,
    items: &[T],
) -> Result<Vec<Value>, AllocError>
    ensures file { IfOk result (λ list. map view list.items ≡ map (W.file writer.now) items.now) }
    ensures fits { OnOk result ((i : ℕ) (x : T)
        → slice_get items.now i ≡ Some x → W.fits writer.now x) }
{
    let mut list = Vec::new(alloc);
    for item in items {
        let value = writer.write(alloc, item)?;
        push(&mut list, value)?;
    }
    Ok(list)
}

// ---- members

pub(crate) type Members = Map<String, Value>;

pub(crate) fn put(
    alloc: Global,
    members: &mut Members,
    key: &str,
    value: Value,
) -> Result<(), AllocError>
    ensures { OnOk result (members_view members.new.entries
        ≡ put key.now (view value) (members_view members.old.entries)) }
{
    serde_json::put(members, alloc, key, value)
}

pub(crate) fn put_text(
    alloc: Global,
    members: &mut Members,
    key: &str,
    text: &str,
) -> Result<(), AllocError>
    ensures { OnOk result (members_view members.new.entries
        ≡ put key.now (string text.now) (members_view members.old.entries)) }
{
    put(alloc, members, key, text_value(alloc, text)?)
}

pub(crate) fn put_items<T, W: Writes<T>>(
    alloc: Global,
    members: &mut Members,
    key: &str,
    writer: &W,
    items: &[T],
) -> Result<(), AllocError>
    ensures file { OnOk result (members_view members.new.entries
        ≡ put key.now (list_file (W.file writer.now) items.now)
        (members_view members.old.entries)) }
    ensures fits { OnOk result ((i : ℕ) (x : T)
        → slice_get items.now i ≡ Some x → W.fits writer.now x) }
{
    put(alloc, members, key, list_value(alloc, writer, items)?)
}

// Puts a number, if there is one.
pub(crate) fn put_natural(
    alloc: Global,
    members: &mut Members,
    key: &str,
    number: Option<u64>,
) -> Result<(), AllocError>
    ensures { OnOk result (members_view members.new.entries
        ≡ given_as key.now natural_file number (members_view members.old.entries)) }
{
    match number {
        Some(number) => put(alloc, members, key, natural_value(number)),
        None => Ok(()),
    }
}

// Puts a value, unless it is left out at its default.
pub(crate) fn put_unless(
    alloc: Global,
    members: &mut Members,
    left_out: bool,
    key: &str,
    value: Value,
) -> Result<(), AllocError>
    ensures { OnOk result (members_view members.new.entries
        ≡ unless left_out key.now (view value) (members_view members.old.entries)) }
{
    if left_out {
        return Ok(());
    }
    put(alloc, members, key, value)
}

// Puts a list, unless it is empty.
pub(crate) fn put_list<T, W: Writes<T>>(
    alloc: Global,
    members: &mut Members,
    key: &str,
    writer: &W,
    items: &[T],
) -> Result<(), AllocError>
    ensures file { OnOk result (members_view members.new.entries
        ≡ list_as key.now (W.file writer.now) items.now (members_view members.old.entries)) }
    ensures fits { OnOk result ((i : ℕ) (x : T)
        → slice_get items.now i ≡ Some x → W.fits writer.now x) }
{
    if items.is_empty() {
        return Ok(());
    }
    put_items(alloc, members, key, writer, items)
}
