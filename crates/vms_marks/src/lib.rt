//! The marks, heads and footers of a migration stream, each with its bytes.
//!
//! A stream begins with its head, which a configuration may follow. A section begins with a head
//! and ends with a footer that repeats its id. A subsection has a head of its own. All numbers in a
//! stream are big-endian. The form is that of QEMU's `savevm`, version 3.
#![tactic(auto)]

mod configuration;
mod description;
mod foot;
mod head;
pub mod heads;
pub mod laws;
mod mark;
mod name;
mod stream_head;
mod sub_head;

pub use configuration::{CONFIGURATION_FRONT, Configuration, LONGEST_CONFIGURATION};
pub use description::{DESCRIPTION_FRONT, LONGEST_DESCRIPTION};
pub use foot::{FOOT_LENGTH, Foot};
pub use head::{HEAD_FRONT, Head, HeadFault, LONGEST_HEAD};
pub use mark::{Mark, marked};
pub use name::{Name, name_of};
pub use stream_head::{BESIDE_SECTIONS, MAGIC, STREAM_HEAD};
pub use sub_head::{LONGEST_SUB_HEAD, SUB_FRONT, SubHead};
