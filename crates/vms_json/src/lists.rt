// Lists.
ghost use Rattle.std.specs.Prelude.{◌≡◌, ◌++◌, ◌∷◌, [], List, map, min, OnOk, IfErr};
ghost use Rattle.serde_json.specs.Events.{items_len};
ghost use Rattle.vms_json.specs.Nodes.{items_left};
ghost use Rattle.vms_json.specs.Answers.{Answers, list_of, each_from};
ghost use Rattle.vms_json.specs.declared.fault.Fault.TheVariants as faults;

use crate::fault::Fault;
use crate::words::Reads;
use crate::{Items, Node};
use std::alloc::Global;
use vms_parts::Listed;

// No list of a well-formed set is longer.
const LONGEST: usize = 256;

/// A reader of lists, whose items the inner reader reads.
#[derive(Clone, Copy)]
pub struct ListOf<R>(pub R);

impl<R: Reads> Reads for ListOf<R>
where
    R::Out: Drop,
{
    type Out = Listed<R::Out>;

    ghost Meaning = { List R.Meaning };

    ghost means = { λ l. map R.means l };

    ghost says = { λ s. list_of (R.says s.0) };

    fn read(&self, alloc: Global, value: &Node) -> Result<Listed<R::Out>, Fault> {
        match value.as_list() {
            Some(items) => Ok(Listed::new(read_each(alloc, &self.0, items)?)),
            None => Err(Fault::here(alloc)),
        }
    }
}

// Reads all items.
fn read_each<R: Reads>(alloc: Global, reader: &R, mut items: Items) -> Result<Vec<R::Out>, Fault>
where
    R::Out: Drop,
    ensures { Answers (λ v. map R.means v.items)
        (each_from (R.says reader.now) 0 (items_left items.entry)) result }
{
    let mut list = Vec::with_capacity(alloc, room_for(items))?;
    let mut i = 0;
    while let Some(item) = items.next() {
        match reader.read(alloc, &item) {
            Ok(out) => put(&mut list, out)?,
            Err(fault) => return Err(fault.under_item(alloc, i)),
        }
        i += 1;
    }
    Ok(list)
}

// Returns the number of items, or 256 if there are more.
fn room_for(mut items: Items) -> usize
    ensures { result ≡ min (items_len (items_left items.entry)) 256 }
{
    let mut room: usize = 0;
    while room < LONGEST {
        let Some(_item) = items.next() else {
            return room;
        };
        room += 1;
    }
    room
}

fn put<T: Drop>(list: &mut Vec<T>, item: T) -> Result<(), Fault>
    ensures put { OnOk result (list.new.items ≡ list.old.items ++ item ∷ []) }
    ensures memory { IfErr result (λ fault. fault ≡ faults.NoMemory) }
{
    match list.push(item) {
        Ok(()) => Ok(()),
        Err(_) => Err(Fault::NoMemory),
    }
}
