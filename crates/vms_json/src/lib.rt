//! JSON texts, read as trees over their text.
//!
//! The crate looks up members by their keys and fields by their names. It reads what values say:
//! numbers, texts, names of fields, lists and the members of objects, or the path of the first
//! fault.
#![tactic(auto)]

mod asked;
mod bytes;
mod fault;
mod field_names;
mod keys;
mod lists;
mod members;
mod names;
mod node;
mod number;
mod parse;
mod words;

pub use asked::is_asked;
pub use bytes::read_bytes;
pub use fault::Fault;
pub use field_names::FieldNames;
pub use keys::{fits, has};
pub use lists::ListOf;
pub use members::{at, at_or, maybe_at, said};
pub use names::{NameIn, Names, Scope};
pub use node::{Items, Members, Node, Tree};
pub use parse::{DEEPEST, NoNode, read_node};
pub use words::{Integer, Reads, TextOf, U16, U32, U64};
