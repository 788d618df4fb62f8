// Lists of what is described.
ghost use Rattle.std.specs.Prelude.{map, Option};
ghost use Rattle.serde_json.specs.Data.{Data};
ghost use Rattle.vms_json.specs.Nodes.{items_left, view};
ghost use Rattle.vms_analyze.specs.Read.{each};
ghost use Rattle.vms_analyze.specs.Typed.{ReadsAs};

use crate::members::Unread;
use std::alloc::Global;
use vms_json::{Items, Node};

/// What is read from a JSON value.
pub(crate) trait Reads<'a>: Drop {
    // The value as plain data.
    ghost Meaning: { Type 0 };

    ghost means: { Self → Meaning };

    // What a value says, if it has the shape.
    ghost says: { Data → Option Meaning };

    /// Returns what `value` says.
    ///
    /// # Errors
    ///
    /// - [`Unread::Shape`]: the value has another shape.
    /// - [`Unread::NoMemory`]: out of memory.
    fn read(alloc: Global, value: &Node<'_, 'a>) -> Result<Self, Unread>
        ensures { ReadsAs means (says (view value.now)) result };
}

/// Returns what all items say.
///
/// # Errors
///
/// - [`Unread::Shape`]: an item has another shape.
/// - [`Unread::NoMemory`]: out of memory.
pub(crate) fn each<'a, T: Reads<'a>>(
    alloc: Global,
    mut items: Items<'_, 'a>,
) -> Result<Vec<T>, Unread>
    ensures { ReadsAs (λ v. map T.means v.items) (each T.says (items_left items.entry)) result }
{
    let mut list = Vec::with_capacity(alloc, items.count())?;
    while let Some(item) = items.next() {
        match T::read(alloc, &item) {
            Ok(one) => list.push(one)?,
            Err(unread) => return Err(unread),
        }
    }
    Ok(list)
}
