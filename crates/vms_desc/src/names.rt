// Names in lists.
ghost use Rattle.std.specs.Prelude.{◌≡◌, ◌<◌, ◌^◌, length, map};
ghost use Rattle.vms_spec.specs.Lookup.{find_sub};
ghost use Rattle.vms_spec.specs.Streams.{is_one_of};
ghost use Rattle.vms_parts.specs.Views.{sub_of};
ghost use Rattle.vms_desc.specs.Names.{IsNameAt, first_named};

use crate::{Sub, Text};

/// Returns whether `name` is one of `names`, byte by byte.
pub fn is_one_of(names: &[Text], name: &[u8]) -> bool
    ensures { result ≡ is_one_of names.now name.now }
{
    for known in names {
        if known.as_bytes() == name {
            return true;
        }
    }
    false
}

/// Returns the number, from 0, of the first of `names` that is `name`, or `None` if there is none.
///
/// # Requires
///
/// There are fewer than 2^32 names.
pub fn find_name(names: &[Text], name: &[u8]) -> Option<u32>
    requires { length names.now < 2 ^ 32 }
    ensures first { result ≡ first_named names.now name.now }
    ensures one { IsNameAt names.now name.now result }
{
    for (number, known) in names.iter().enumerate() {
        if known.as_bytes() == name {
            return Some(number as u32);
        }
    }
    None
}

/// Returns the number, from 0, of the first of `subs` whose full name is `name`, or `None` if there
/// is none.
///
/// # Requires
///
/// There are fewer than 2^32 subsections.
pub fn find_sub(subs: &[Sub], name: &[u8]) -> Option<u32>
    requires { length subs.now < 2 ^ 32 }
    ensures { result ≡ find_sub 0 (map sub_of subs.now) name.now }
{
    for (number, sub) in subs.iter().enumerate() {
        if sub.desc.name.as_bytes() == name {
            return Some(number as u32);
        }
    }
    None
}
