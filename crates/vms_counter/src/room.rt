// The size that a stream of a set can have.
ghost use Rattle.std.specs.Prelude.{◌≡◌, ◌+◌, map, length, IfOk};
ghost use Rattle.vms_parts.specs.Sizes.{in_u32};
ghost use Rattle.vms_parts.specs.Views.{desc_of, device_of, field_of, sub_of};
ghost use Rattle.vms_load.specs.Bounds.{item_bytes, fields_bytes, struct_bytes};
ghost use Rattle.vms_counter.specs.Calls.{IsRoomOf};
ghost use Rattle.vms_counter.specs.Room.{device_in, devices_in, subs_in};

use std::alloc::{AllocError, Global};
use vms_desc::{Desc, DescSet, Device, Field, Sub};
use vms_io::NoMemory;
use vms_kinds::Item;
use vms_marks::{BESIDE_SECTIONS, FOOT_LENGTH, LONGEST_HEAD, LONGEST_SUB_HEAD};
use vms_parts::capacity;

// Returns the bytes of one element, where those of each structure are given.
fn item_bytes(structs: &[u32], item: Item) -> u32
    ensures { result ≡ item_bytes structs.now item }
{
    match item {
        Item::Num(kind) => kind.width() as u32,
        Item::Equal { kind, .. } => kind.width() as u32,
        Item::Unused { bytes } => u32::from(bytes),
        Item::Struct(number) => structs.get(number as usize).copied().unwrap_or(0),
    }
}

// Parts of a set that take room in a stream, where the bytes of each structure are given.
trait TakesRoom {
    ghost use Rattle.std.specs.Prelude.{◌≡◌, ◌+◌, ℕ, List, [], ◌∷◌};

    // The bytes at full lengths and capacities.
    ghost bytes: { List ℕ → Self → ℕ };

    ghost all_bytes: { List ℕ → List Self → ℕ };

    ghost none: { (structs : List ℕ) → all_bytes structs [] ≡ 0 };

    ghost more: { (structs : List ℕ) (x : Self) (xs : List Self)
        → all_bytes structs (x ∷ xs) ≡ bytes structs x + all_bytes structs xs };

    // Returns the bytes, but at most 2^32 - 1, like all sums here.
    fn bytes(&self, structs: &[u32]) -> u32
        ensures { result ≡ in_u32 (bytes structs.now self.now) };
}

impl TakesRoom for Field {
    ghost use Rattle.std.specs.Prelude.{◌*◌, map, refl};
    ghost use Rattle.vms_spec.specs.Layout.{capacity_of};

    ghost bytes = { λ structs f. capacity_of f.count * item_bytes structs f.item };

    ghost all_bytes = { λ structs fs. fields_bytes structs (map field_of fs) };

    ghost none = { λ structs. refl };

    ghost more = { λ structs f fs. refl };

    fn bytes(&self, structs: &[u32]) -> u32 {
        capacity(self.count).saturating_mul(item_bytes(structs, self.item))
    }
}

// A subsection with its head.
impl TakesRoom for Sub {
    ghost use Rattle.std.specs.Prelude.{◌+◌, map, refl};
    ghost use Rattle.vms_marks.specs.declared.sub_head.TheConstants.{LONGEST_SUB_HEAD};

    ghost bytes = { λ structs s.
        fields_bytes structs (map field_of s.desc.fields) + LONGEST_SUB_HEAD };

    ghost all_bytes = { λ structs subs. subs_in structs (map sub_of subs) };

    ghost none = { λ structs. refl };

    ghost more = { λ structs s subs. refl };

    fn bytes(&self, structs: &[u32]) -> u32 {
        all_bytes(structs, self.desc.fields.as_slice()).saturating_add(LONGEST_SUB_HEAD as u32)
    }
}

// A device with its head, its footer and all its subsections.
impl TakesRoom for Device {
    ghost use Rattle.std.specs.Prelude.{map, refl};

    ghost bytes = { λ structs d. device_in structs (device_of d) };

    ghost all_bytes = { λ structs devices. devices_in structs (map device_of devices) };

    ghost none = { λ structs. refl };

    ghost more = { λ structs d devices. refl };

    fn bytes(&self, structs: &[u32]) -> u32 {
        let own = all_bytes(structs, self.desc.fields.as_slice());
        let subs = all_bytes(structs, self.subs.as_slice());
        own.saturating_add(subs)
            .saturating_add((LONGEST_HEAD + FOOT_LENGTH) as u32)
    }
}

fn all_bytes<T: TakesRoom>(structs: &[u32], items: &[T]) -> u32
    ensures { result ≡ in_u32 (T.all_bytes structs.now items.now) }
{
    let mut sum: u32 = 0;
    for item in items {
        sum = sum.saturating_add(item.bytes(structs));
    }
    sum
}

// Returns the bytes of each structure. For a structure that no device uses the number may be cut to 2^32 - 1.
fn struct_bytes(alloc: Global, structs: &[Desc]) -> Result<Vec<u32>, AllocError>
    ensures { IfOk result (λ bytes. bytes.items
        ≡ map in_u32 (struct_bytes (map desc_of structs.now) (length structs.now))) }
{
    let mut bytes = Vec::with_capacity(alloc, structs.len())?;
    for desc in structs {
        bytes.push(all_bytes(&bytes, desc.fields.as_slice()))?;
    }
    Ok(bytes)
}

/// Returns a size that no stream of ready images without a description reaches: all sections at
/// full lengths and capacities, and what is outside of sections.
///
/// # Errors
///
/// [`NoMemory`] if memory runs out.
pub(crate) fn room(alloc: Global, set: &DescSet) -> Result<u32, NoMemory>
    ensures { IsRoomOf set.now result }
{
    let structs = struct_bytes(alloc, set.parts().structs.as_slice())?;
    Ok(BESIDE_SECTIONS as u32 + all_bytes(&structs, set.parts().devices.as_slice()))
}
