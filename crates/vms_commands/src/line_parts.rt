// Parts of lines that are built in fixed buffers of any size, without an allocation.
ghost use Rattle.std.specs.Prelude.{◌≡◌, ◌+◌, ◌++◌, ◌≤◌, length};
ghost use Rattle.std.specs.Fmt.{decimal};
ghost use Rattle.vms_commands.specs.Lines.{reason_text};

use arrayvec::ArrayVec;
use itoa::Buffer;
use vms_load::Reason;
use vms_words::append;

/// Appends the decimal digits of `number` to `line`, at most 20 bytes.
///
/// # Requires
///
/// `line` has room for 20 more bytes.
#[tactic(auto, using(crate::proofs::NamedSets::number_short))]
pub fn append_number<const N: usize>(line: &mut ArrayVec<u8, N>, number: u64)
    requires { length line.old.items + 20 ≤ N }
    ensures items { line.new.items ≡ line.old.items ++ decimal number }
    ensures few { length line.new.items ≤ length line.old.items + 20 }
{
    let mut digits = Buffer::new();
    append(line, digits.format(number).as_bytes());
}

/// Appends the name of `reason` to `line`. For a rule of a device a space and the rule's number
/// follow.
///
/// # Requires
///
/// `line` has room for 22 more bytes.
pub(crate) fn append_reason<const N: usize>(line: &mut ArrayVec<u8, N>, reason: Reason)
    requires { length line.old.items + 22 ≤ N }
    ensures items { line.new.items ≡ line.old.items ++ reason_text reason }
    ensures few { length line.new.items ≤ length line.old.items + 22 }
{
    append(line, reason.word().as_bytes());
    if let Some(rule) = reason.rule() {
        let mut digits = Buffer::new();
        append(line, b" ");
        append(line, digits.format(rule).as_bytes());
    }
}
