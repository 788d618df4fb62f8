// The entries of elements.
ghost use Rattle.std.specs.Prelude.{◌≡◌, [], ◌∷◌, true, false, pos, codes, string_bytes};
ghost use Rattle.vms_selfdesc.specs.Calls.{CanPutCell, CanPutSent};
ghost use Rattle.vms_selfdesc.specs.Drafts.{Begins, IsPlain, PutsSize, cell_tail, absent_tail};
ghost use Rattle.vms_selfdesc.specs.Entries.{cell_entry, sent_entry};
ghost use Rattle.vms_selfdesc.specs.Listing.{Lists};

use crate::draft::{Draft, put_integer, put_natural, put_text};
use crate::text::Text;
use vms_kinds::Kind;

// Returns what follows the path of a cell that is in the stream.
#[tactic(auto, using(crate::proofs::Plain::cell_same))]
fn cell_tail(kind: Kind) -> &'static str
    ensures { result.now ≡ cell_tail kind }
{
    match kind {
        Kind::U8 => "\",\"size\":1,\"type\":\"u8\"}",
        Kind::U16 => "\",\"size\":2,\"type\":\"u16\"}",
        Kind::U32 => "\",\"size\":4,\"type\":\"u32\"}",
        Kind::U64 => "\",\"size\":8,\"type\":\"u64\"}",
        Kind::I8 => "\",\"size\":1,\"type\":\"i8\"}",
        Kind::I16 => "\",\"size\":2,\"type\":\"i16\"}",
        Kind::I32 => "\",\"size\":4,\"type\":\"i32\"}",
        Kind::I64 => "\",\"size\":8,\"type\":\"i64\"}",
        Kind::Bool => "\",\"size\":1,\"type\":\"bool\"}",
        Kind::Timer => "\",\"size\":8,\"type\":\"timer\"}",
    }
}

// Returns what follows the path of a cell that isn't in the stream, up to its default.
#[tactic(auto, using(crate::proofs::Plain::absent_same))]
fn absent_tail(kind: Kind) -> &'static str
    ensures { result.now ≡ absent_tail kind }
{
    match kind {
        Kind::U8 => "\",\"size\":0,\"type\":\"u8\",\"value\":",
        Kind::U16 => "\",\"size\":0,\"type\":\"u16\",\"value\":",
        Kind::U32 => "\",\"size\":0,\"type\":\"u32\",\"value\":",
        Kind::U64 => "\",\"size\":0,\"type\":\"u64\",\"value\":",
        Kind::I8 => "\",\"size\":0,\"type\":\"i8\",\"value\":",
        Kind::I16 => "\",\"size\":0,\"type\":\"i16\",\"value\":",
        Kind::I32 => "\",\"size\":0,\"type\":\"i32\",\"value\":",
        Kind::I64 => "\",\"size\":0,\"type\":\"i64\",\"value\":",
        Kind::Bool => "\",\"size\":0,\"type\":\"bool\",\"value\":",
        Kind::Timer => "\",\"size\":0,\"type\":\"timer\",\"value\":",
    }
}

// Begins an entry up to its path, with a comma if it isn't the first.
#[inline(always)]
fn begin_entry(draft: &mut Draft)
    ensures { Begins draft.old draft.new (codes "{\"name\":\"") }
{
    if draft.later {
        draft.text.push(",{\"name\":\"");
    } else {
        draft.text.push("{\"name\":\"");
    }
}

// Writes a cell that is in the stream.
#[inline(always)]
fn write_present(draft: &mut Draft, kind: Kind)
    requires { IsPlain (string_bytes draft.old.path.text) }
    ensures { let entry = cell_entry true (string_bytes draft.old.path.text) kind (pos 0) in
        Lists draft.old draft.new (entry ∷ []) }
{
    begin_entry(draft);
    draft.text.push(draft.path.as_str());
    draft.text.push(cell_tail(kind));
    draft.later = true;
}

// Appends the members of an entry after its path.
fn put_size(text: &mut Text, size: u64, word: &str)
    requires { IsPlain word.now }
    ensures { PutsSize text.old text.new size word.now }
{
    put_natural(text, "size", size);
    put_text(text, "type", word);
}

// Writes something that is in the stream.
pub(crate) fn write_sent(draft: &mut Draft, size: u64, word: &str)
    requires { CanPutSent draft.old word.now }
    ensures { let entry = sent_entry (string_bytes draft.old.path.text) size word.now in
        Lists draft.old draft.new (entry ∷ []) }
{
    begin_entry(draft);
    draft.text.push(draft.path.as_str());
    draft.text.push("\"");
    put_size(&mut draft.text, size, word);
    draft.text.push("}");
    draft.later = true;
}

// Writes a cell that isn't in the stream, with its default.
fn write_absent(draft: &mut Draft, kind: Kind, default: i128)
    requires { CanPutCell draft.old default }
    ensures { let entry = cell_entry false (string_bytes draft.old.path.text) kind default in
        Lists draft.old draft.new (entry ∷ []) }
{
    begin_entry(draft);
    draft.text.push(draft.path.as_str());
    draft.text.push(absent_tail(kind));
    put_integer(&mut draft.text, default);
    draft.text.push("}");
    draft.later = true;
}

// Writes a cell. If it isn't in the stream, its default follows.
#[inline(always)]
pub(crate) fn write_cell(draft: &mut Draft, sent: bool, kind: Kind, default: i128)
    requires { CanPutCell draft.old default }
    ensures { let entry = cell_entry sent (string_bytes draft.old.path.text) kind default in
        Lists draft.old draft.new (entry ∷ []) }
{
    if sent {
        write_present(draft, kind);
    } else {
        write_absent(draft, kind, default);
    }
}
