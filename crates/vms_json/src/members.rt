// The members of objects.
ghost use Rattle.std.specs.Prelude.{None, option_map};
ghost use Rattle.vms_json.specs.Nodes.{view};
ghost use Rattle.vms_json.specs.Answers.{Answers, under};
ghost use Rattle.vms_json.specs.Members.{at, at_or, maybe_at};

use crate::Node;
use crate::fault::Fault;
use crate::words::Reads;
use std::alloc::Global;

/// Reads `member`, which is the member `key` of an object.
///
/// # Errors
///
/// - [`Fault::Shape`]: the member is invalid. The path begins with `key`.
/// - [`Fault::NoMemory`]: out of memory.
#[inline(always)]
pub fn said<R: Reads>(alloc: Global, reader: &R, key: &str, member: &Node) -> Result<R::Out, Fault>
    ensures { Answers R.means (under key.now (R.says reader.now (view member.now))) result }
{
    match reader.read(alloc, member) {
        Ok(out) => Ok(out),
        Err(fault) => Err(fault.under(alloc, key)),
    }
}

/// Reads the member `key` of `value`.
///
/// # Errors
///
/// - [`Fault::Shape`]: there is no such member, and the path is empty; or the member is invalid,
///   and the path begins with `key`.
/// - [`Fault::NoMemory`]: out of memory.
#[inline(always)]
pub fn at<R: Reads>(alloc: Global, reader: &R, key: &str, value: &Node) -> Result<R::Out, Fault>
    ensures { Answers R.means (at (R.says reader.now) key.now (view value.now)) result }
{
    match value.get(key) {
        Some(member) => said(alloc, reader, key, &member),
        None => Err(Fault::here(alloc)),
    }
}

/// Reads the member `key` of `value`, or returns `default` if there is none.
///
/// # Errors
///
/// - [`Fault::Shape`]: the member is invalid. The path begins with `key`.
/// - [`Fault::NoMemory`]: out of memory.
pub fn at_or<R: Reads>(
    alloc: Global,
    reader: &R,
    key: &str,
    value: &Node,
    default: R::Out,
) -> Result<R::Out, Fault>
where
    R::Out: Drop,
    ensures { Answers R.means (at_or (R.means default) (R.says reader.now) key.now
        (view value.now)) result }
{
    match value.get(key) {
        Some(member) => said(alloc, reader, key, &member),
        None => Ok(default),
    }
}

/// Reads the member `key` of `value`, or returns `None` if there is none.
///
/// # Errors
///
/// - [`Fault::Shape`]: the member is invalid. The path begins with `key`.
/// - [`Fault::NoMemory`]: out of memory.
#[inline(always)]
pub fn maybe_at<R: Reads>(
    alloc: Global,
    reader: &R,
    key: &str,
    value: &Node,
) -> Result<Option<R::Out>, Fault>
    ensures { Answers (option_map R.means) (maybe_at (R.says reader.now) key.now (view value.now))
        result }
{
    match value.get(key) {
        Some(member) => match reader.read(alloc, &member) {
            Ok(out) => Ok(Some(out)),
            Err(fault) => Err(fault.under(alloc, key)),
        },
        None => Ok(None),
    }
}
