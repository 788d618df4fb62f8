//! What all commands of the program share: what a call has to do and how far it got, how a command
//! ends, the sets that arguments name, and the lines on standard error.
//!
//! Each command has a crate or a module of its own, which builds on this crate: its outcome, its
//! errors and its code.
#![tactic(auto)]

mod ending;
mod fetching;
mod kinds;
mod line_parts;
mod notes;
mod refused;
mod set_notes;
mod set_words;
mod texts;
mod words;

pub use ending::Ending;
pub use fetching::{LONGEST_FILE, SetText, fetch, fetch_set, loader_of, read_fetched, set_of};
pub use kinds::BoardKind;
pub use line_parts::append_number;
pub use notes::{not_there_line, too_large_line};
pub use refused::{NoteLine, append_section, refusal_line, refused_line};
pub use set_notes::{mismatch_line, rule_line, shape_line, syntax_line};
pub use set_words::{BoardWord, SetWord, ShippedSet};
pub use texts::write_text;
pub use words::{board_word, set_word, shipped_set};
