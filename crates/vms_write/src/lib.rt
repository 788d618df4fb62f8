//! The writer: images as sections and as a whole stream.
#![tactic(auto)]

mod body;
mod fine;
mod pieces;
mod readiness;
mod section;
mod stream;

pub use readiness::{are_ready, is_bare, ready};
pub use section::write_section;
pub use stream::write_stream;
pub use vms_io::WriteFault;
pub use vms_marks::heads::{configuration, section_head, sub_head};
