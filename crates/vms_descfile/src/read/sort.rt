// The kinds that a field may have in a file.
use vms_kinds::Kind;

// The kind of a field, as the word under `kind` names it.
#[derive(Clone, Copy)]
pub(crate) enum Sort {
    // A number of this kind.
    Number(Kind),
    // Unused bytes.
    Unused,
    // A structure.
    Struct,
}
