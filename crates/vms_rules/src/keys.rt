// Names of fields that already differ by their keys.
ghost use Rattle.std.specs.List.{IsDistinct};
ghost use Rattle.std.specs.List.Sorted.{IsStrictlyIncreasing};
ghost use Rattle.std.specs.Ordering.{nat_cmp, eq_by_cmp};
ghost use Rattle.std.specs.Prelude.{◌≡◌, ◌++◌, true, map, IfOk, OnOk};
ghost use Rattle.vms_spec.specs.Names.{all_names};
ghost use Rattle.vms_parts.specs.Views.{field_of};
ghost use Rattle.vms_rules.specs.NameSets.{key};

use crate::names::key;
use std::alloc::{AllocError, Global};
use vms_parts::{Field, Text};

fn put_keys(keys: &mut Vec<u32>, names: &[Text]) -> Result<(), AllocError>
    ensures { OnOk result (keys.new.items ≡ keys.old.items ++ map key names.now) }
{
    for name in names {
        keys.push(key(name.as_bytes()))?;
    }
    Ok(())
}

// Returns the keys of all names of fields, former names included.
#[tactic(auto, using(crate::proofs::NameLaws::keys_with))]
fn keys(alloc: Global, fields: &[Field]) -> Result<Vec<u32>, AllocError>
    ensures { IfOk result (λ list.
        list.items ≡ map key (all_names (map field_of fields.now))) }
{
    let mut keys = Vec::with_capacity(alloc, fields.len())?;
    for field in fields {
        keys.push(key(field.name.as_bytes()))?;
        put_keys(&mut keys, field.former.as_slice())?;
    }
    Ok(keys)
}

// Returns whether each number is less than the next.
fn are_rising(numbers: &[u32]) -> bool
    ensures { result ≡ true → IsStrictlyIncreasing numbers.now }
{
    for place in 1..numbers.len() {
        if numbers[place] <= numbers[place - 1] {
            return false;
        }
    }
    true
}

// Returns whether all names of these fields differ by their keys. If they don't, the names may
// differ anyway.
pub(crate) fn differ_by_keys(alloc: Global, fields: &[Field]) -> Result<bool, AllocError>
    ensures { IfOk result (λ differ. differ ≡ true
        → IsDistinct (eq_by_cmp nat_cmp) (map key (all_names (map field_of fields.now)))) }
{
    let mut keys = keys(alloc, fields)?;
    keys.sort_unstable();
    Ok(are_rising(keys.as_slice()))
}
