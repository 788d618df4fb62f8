// The lines that a session's own lines leave in its trace. Each is built without an allocation.
ghost use Rattle.std.specs.Prelude.{◌≡◌, ◌≤◌, ◌++◌, [], ◌∷◌, length};
ghost use Rattle.std.specs.Fmt.{decimal};
ghost use Rattle.vms_desc.specs.Described.{described};
ghost use Rattle.vms_session.specs.Lines.{refused_line, restored_line, saved_line};

use arrayvec::ArrayVec;
use vms_commands::{NoteLine, append_number, refusal_line};
use vms_desc::DescSet;
use vms_load::Refusal;
use vms_words::append;

/// Returns a line with the fixed text `text`.
pub(crate) fn mark(text: &[u8]) -> NoteLine
    requires { length text.now ≤ 256 }
    ensures { result.items ≡ text.now }
{
    let mut line = ArrayVec::new();
    append(&mut line, text);
    line
}

/// Returns the line of a stored stream of `count` bytes.
pub(crate) fn saved_mark(count: u64) -> NoteLine
    ensures { result.items ≡ saved_line count }
{
    counted_mark(b"saved ", count)
}

/// Returns the line of a restored stream of `count` bytes.
pub(crate) fn restored_mark(count: u64) -> NoteLine
    ensures { result.items ≡ restored_line count }
{
    counted_mark(b"restored ", count)
}

// Returns the line of a number after a word.
fn counted_mark(word: &[u8], count: u64) -> NoteLine
    requires { length word.now ≤ 16 }
    ensures { result.items ≡ word.now ++ (decimal count ++ 10 ∷ []) }
{
    let mut line = ArrayVec::new();
    append(&mut line, word);
    append_number(&mut line, count);
    append(&mut line, b"\n");
    line
}

/// Returns the line of a refused stream: the offset, the device of `set` and the reason.
pub(crate) fn refused_mark(set: &DescSet, refusal: &Refusal) -> NoteLine
    ensures { let r = refusal.now in
        result.items ≡ refused_line (described set.now) r.at r.section r.reason }
{
    refusal_line(set, refusal, b"refused ", b" ", b" ")
}
