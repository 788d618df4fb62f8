// Numbers, constants and validations, each with its check.
ghost use Rattle.std.specs.Prelude.{◌≡◌, true, false, OnOk, IfErr};
ghost use Rattle.vms_io.specs.Told.{intake};
ghost use Rattle.vms_load.specs.Calls.{TakesConstant, TakesNumber, input};
ghost use Rattle.vms_load.specs.Reads.{MayTake};

use vms_frames::{Cursor, FrameFault};
use vms_io::Source;
use vms_kinds::Kind;
use vms_spec::Reason;
use vms_walk::is_above;

/// Reads a number of `kind` and checks that it is at most `most`.
///
/// `most` is the least capacity of the arrays that the number counts, whether or not these are
/// there.
///
/// # Errors
///
/// - [`FrameFault::Refused`]: `CountTooLarge`, `BadBool` or `Truncated`.
/// - [`FrameFault::ReadFault`]: the source failed.
#[inline(always)]
pub(crate) fn number<S: Source>(
    cursor: &mut Cursor,
    source: &mut S,
    kind: Kind,
    most: Option<u32>,
) -> Result<i128, FrameFault>
    requires { MayTake 0 cursor.old }
    ensures { let from = input cursor.old (intake S.Source source.old) in
        let to = input cursor.new (intake S.Source source.new) in
        TakesNumber kind most from to result }
{
    let at = cursor.at();
    let value = cursor.number(source, kind)?;
    if is_above(value, most) {
        return Err(FrameFault::Refused {
            at,
            reason: Reason::CountTooLarge,
        });
    }
    Ok(value)
}

/// Reads a number of `kind` and checks that it is `value`.
///
/// # Errors
///
/// - [`FrameFault::Refused`]: `NotEqual`, `BadBool` or `Truncated`.
/// - [`FrameFault::ReadFault`]: the source failed.
pub(crate) fn constant<S: Source>(
    cursor: &mut Cursor,
    source: &mut S,
    kind: Kind,
    value: i128,
) -> Result<(), FrameFault>
    requires { MayTake 0 cursor.old }
    ensures { let from = input cursor.old (intake S.Source source.old) in
        let to = input cursor.new (intake S.Source source.new) in
        TakesConstant kind value from to result }
{
    let at = cursor.at();
    let found = cursor.number(source, kind)?;
    if found != value {
        return Err(FrameFault::Refused {
            at,
            reason: Reason::NotEqual,
        });
    }
    Ok(())
}

/// Checks `holds`, a validation at the end of a description.
///
/// # Errors
///
/// - [`FrameFault::Refused`]: `Invalid`, at the cursor's offset, if it doesn't hold.
pub(crate) fn rule(holds: bool, cursor: &Cursor) -> Result<(), FrameFault>
    ensures ok { OnOk result (holds ≡ true) }
    ensures err { IfErr result (λ fault.
        (holds ≡ false) × (fault ≡ FrameFault.Refused cursor.now.at Reason.Invalid)) }
{
    if !holds {
        return Err(FrameFault::Refused {
            at: cursor.at(),
            reason: Reason::Invalid,
        });
    }
    Ok(())
}
