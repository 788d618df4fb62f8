//! The top call for programs in C and Rust: a static library with the functions `vmstate_call` and
//! `vmstate_call_stored`.
//!
//! It reads the caller's data and doesn't change it. Memory that a call allocates is freed before
//! it returns. The header is `examples/embed/vmstate.h`.
#![tactic(auto)]

mod border;
mod call;
mod folder;
/// Laws of all calls.
pub mod laws;
mod request;
mod stored;

pub use border::{vmstate_call, vmstate_call_stored};
pub use request::{Answer, Bytes, File, Request, Stored, StoredAnswer, TOO_SMALL};
