//! The bytes of heads, for names that are borrowed.
ghost use Rattle.std.specs.Prelude.{◌≡◌, ◌≤◌, length};
ghost use Rattle.vms_spec.specs.declared.TheConstants.{LONGEST_NAME};
ghost use Rattle.vms_spec.specs.Streams.{configuration, section_head, sub_head};

use crate::{LONGEST_CONFIGURATION, LONGEST_HEAD, LONGEST_SUB_HEAD, Mark, marked};
use arrayvec::ArrayVec;

/// Returns the bytes of a configuration: its mark, and the machine's `name` with its length.
///
/// # Requires
///
/// `name` has at most 255 bytes.
#[inline(always)]
pub fn configuration(name: &[u8]) -> ArrayVec<u8, LONGEST_CONFIGURATION>
    requires { length name.now ≤ LONGEST_NAME }
    ensures { result.items ≡ configuration name.now }
{
    let mut bytes = ArrayVec::new();
    let front = marked(Mark::Configuration, name.len() as u32);
    let _fits = bytes.try_extend_from_slice(&front);
    let _fits = bytes.try_extend_from_slice(name);
    bytes
}

/// Returns the bytes of a section's head: its mark, `id`, `name`, `instance` id and `version`.
///
/// # Requires
///
/// `name` has at most 255 bytes.
#[inline(always)]
pub fn section_head(id: u32, name: &[u8], instance: u32, version: u32) -> ArrayVec<u8, LONGEST_HEAD>
    requires { length name.now ≤ LONGEST_NAME }
    ensures { result.items ≡ section_head id name.now instance version }
{
    let mut bytes = ArrayVec::new();
    bytes.push(Mark::Full.byte());
    let _fits = bytes.try_extend_from_slice(&id.to_be_bytes());
    bytes.push(name.len() as u8);
    let _fits = bytes.try_extend_from_slice(name);
    let _fits = bytes.try_extend_from_slice(&instance.to_be_bytes());
    let _fits = bytes.try_extend_from_slice(&version.to_be_bytes());
    bytes
}

/// Returns the bytes of a subsection's head: its mark, full `name` and `version`.
///
/// # Requires
///
/// `name` has at most 255 bytes.
#[inline(always)]
pub fn sub_head(name: &[u8], version: u32) -> ArrayVec<u8, LONGEST_SUB_HEAD>
    requires { length name.now ≤ LONGEST_NAME }
    ensures { result.items ≡ sub_head name.now version }
{
    let mut bytes = ArrayVec::new();
    bytes.push(Mark::Sub.byte());
    bytes.push(name.len() as u8);
    let _fits = bytes.try_extend_from_slice(name);
    let _fits = bytes.try_extend_from_slice(&version.to_be_bytes());
    bytes
}
