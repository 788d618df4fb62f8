//! Words and lines of texts.
//!
//! The crate has the words of the kinds of number, which description files and self-descriptions
//! use; the form of names; the first line of a text; and laws about the spelling of numbers.
#![tactic(auto)]

ghost use Rattle.std.specs.Prelude.{◌≡◌};
ghost use Rattle.vms_words.specs.Words.{kind_word, kind_named, TellsKind};

pub mod laws;
mod line;
mod name;

pub use line::{NextLine, append, next_line};
pub use name::{are_name_bytes, is_name, is_name_byte};
use vms_kinds::Kind;

const KINDS: [Kind; 10] = [
    Kind::U8,
    Kind::U16,
    Kind::U32,
    Kind::U64,
    Kind::I8,
    Kind::I16,
    Kind::I32,
    Kind::I64,
    Kind::Bool,
    Kind::Timer,
];

/// Returns the word of `kind`, for example `u8`.
pub fn kind_word(kind: Kind) -> &'static str
    ensures { result.now ≡ kind_word kind }
{
    match kind {
        Kind::U8 => "u8",
        Kind::U16 => "u16",
        Kind::U32 => "u32",
        Kind::U64 => "u64",
        Kind::I8 => "i8",
        Kind::I16 => "i16",
        Kind::I32 => "i32",
        Kind::I64 => "i64",
        Kind::Bool => "bool",
        Kind::Timer => "timer",
    }
}

/// Returns the kind whose word is `word`, or `None` exactly if there is none.
pub fn kind_named(word: &str) -> Option<Kind>
    ensures kind { result ≡ kind_named word.now }
    ensures right { TellsKind word.now result }
{
    for kind in KINDS {
        if word == kind_word(kind) {
            return Some(kind);
        }
    }
    None
}
