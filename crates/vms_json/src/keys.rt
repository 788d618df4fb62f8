// The keys of objects.
ghost use Rattle.std.specs.Prelude.{◌≡◌, ◌++◌, ◌||◌, map};
ghost use Rattle.std.specs.List.{list_all, list_any};
ghost use Rattle.std.specs.Str.{bytes_eq};
ghost use Rattle.vms_json.specs.Nodes.{view, members_left};
ghost use Rattle.vms_spec.specs.Streams.{is_one_of};
ghost use Rattle.vms_json.specs.Keys.{has, has_one, has_all, fits, has_no_others};

use crate::node::{Members, Node, is_key};

/// Returns whether `value` is an object that has each of the keys `needed`, and no others but those
/// and the keys `allowed`.
pub fn fits(value: &Node, needed: &[&str], allowed: &[&str]) -> bool
    ensures { result
        ≡ fits (map (λ k. k.now) needed.now) (map (λ k. k.now) allowed.now) (view value.now) }
{
    match value.as_members() {
        Some(members) => has_no_others(members, needed, allowed) && has_all(value, needed),
        None => false,
    }
}

/// Returns whether `value` is an object with a member `key`.
pub fn has(value: &Node, key: &str) -> bool
    ensures { result ≡ has key.now (view value.now) }
{
    value.get(key).is_some()
}

// Returns whether `value` is an object with a member `key` or a member `other`, in one walk.
pub(crate) fn has_either(value: &Node, key: &str, other: &str) -> bool
    ensures { result ≡ (has key.now (view value.now) || has other.now (view value.now)) }
{
    match value.as_members() {
        Some(members) => have_either(members, key, other),
        None => false,
    }
}

fn have_either(mut members: Members, key: &str, other: &str) -> bool
    ensures { result ≡ has_one key.now other.now (members_left members.entry) }
{
    let mut found = false;
    while let Some((name, _value)) = members.next() {
        if is_either(name, key, other) {
            found = true;
        }
    }
    found
}

#[inline(always)]
fn is_either(name: &str, key: &str, other: &str) -> bool
    ensures { result ≡ (bytes_eq name.now key.now || bytes_eq name.now other.now) }
{
    is_key(name, key) || is_key(name, other)
}

fn has_all(value: &Node, keys: &[&str]) -> bool
    ensures { result ≡ has_all (map (λ k. k.now) keys.now) (view value.now) }
{
    has_each(value, keys)
}

fn has_each(value: &Node, keys: &[&str]) -> bool
    ensures { result ≡ list_all (λ k. has k.now (view value.now)) keys.now }
{
    keys.iter().all(|key| has(value, key))
}

fn is_among(keys: &[&str], key: &str) -> bool
    ensures { result ≡ list_any (λ k. bytes_eq k.now key.now) keys.now }
{
    keys.iter().any(|other| is_key(other, key))
}

#[inline(always)]
fn is_one_of(keys: &[&str], key: &str) -> bool
    ensures { result ≡ is_one_of (map (λ k. k.now) keys.now) key.now }
{
    is_among(keys, key)
}

// Returns whether the members have no other keys than these.
fn has_no_others(mut members: Members, needed: &[&str], allowed: &[&str]) -> bool
    ensures { result
        ≡ has_no_others (map (λ k. k.now) needed.now ++ map (λ k. k.now) allowed.now)
        (members_left members.entry) }
{
    while let Some((key, _value)) = members.next() {
        if !is_one_of(needed, key) && !is_one_of(allowed, key) {
            return false;
        }
    }
    true
}
