// The form of names, and sets of names.
ghost use Rattle.std.specs.Prelude.{◌≡◌, ◌<◌, ◌==◌, ◌&&◌, ◌||◌, length, take, get_or, not, List, ℕ, IfOk, OnOk};
ghost use Rattle.std.specs.List.{list_all};
ghost use Rattle.std.specs.Str.{bytes_eq};
ghost use Rattle.vms_spec.specs.Names.{is_name, is_sub_name};
ghost use Rattle.vms_spec.specs.Streams.{is_one_of};
ghost use Rattle.vms_rules.specs.NameSets.{key, has_name, with_name, are_new_to};

use std::alloc::AllocError;
use std::collections::BTreeSet;
use vms_parts::Text;
use vms_words::is_name;

// Returns whether each of these is a name of 1 to `most` bytes.
pub(crate) fn are_names(most: usize, names: &[Text]) -> bool
    ensures { result ≡ list_all (is_name most) names.now }
{
    names.iter().all(|name| is_name(most, name.as_bytes()))
}

// Returns whether a subsection's name is its device's, a slash and a tail.
#[tactic(auto, using(crate::proofs::NameLaws::sub_name_laws))]
pub(crate) fn is_sub_name(device: &[u8], name: &[u8]) -> bool
    ensures { result ≡ is_sub_name device.now name.now }
{
    if name.len() <= device.len() {
        return false;
    }
    has_front(device, name) && is_name(64, &name[device.len() + 1..])
}

// Returns whether a longer name begins with the device's and a slash.
fn has_front(device: &[u8], name: &[u8]) -> bool
    requires { length device.now < length name.now }
    ensures { result ≡ (bytes_eq (take (length device.now) name.now) device.now
        && (get_or name.now (length device.now) 0 == 47)) }
{
    &name[..device.len()] == device && name[device.len()] == b'/'
}

// A name after its key, by which most names of a description differ.
pub(crate) type Keyed<'a> = (u32, &'a str);

// Returns a number of 32 bits from all bytes of a name.
#[tactic(auto, unfolding(crate::specs::NameSets::key))]
pub(crate) fn key(name: &[u8]) -> u32
    ensures { result ≡ key name.now }
{
    let mut key = 0;
    for place in (0..name.len()).rev() {
        key = ((name[place] as u64 + 31 * key as u64) % 0x1_0000_0000) as u32;
    }
    key
}

// Adds a name to a set of names, and returns whether it is new.
pub(crate) fn add_name<'a>(
    names: &mut BTreeSet<Keyed<'a>>,
    name: &'a str,
) -> Result<bool, AllocError>
    ensures new { IfOk result (λ is_new. is_new ≡ not (has_name names.old name.now)) }
    ensures added { OnOk result
        ((n : List ℕ) → has_name names.new n ≡ with_name (has_name names.old) name.now n) }
{
    Ok(names.insert((key(name.as_bytes()), name))?)
}

// Adds names to a set of names, and returns whether all are new.
pub(crate) fn add_names<'a>(
    names: &mut BTreeSet<Keyed<'a>>,
    list: &'a [Text],
) -> Result<bool, AllocError>
    ensures new { IfOk result (λ are_new. are_new ≡ are_new_to (has_name names.old) list.now) }
    ensures added { OnOk result
        ((n : List ℕ) → has_name names.new n ≡ (is_one_of list.now n || has_name names.old n)) }
{
    let mut are_new = true;
    for name in list {
        are_new &= add_name(names, name.as_str())?;
    }
    Ok(are_new)
}
