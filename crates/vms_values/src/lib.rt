//! The values text of a set's images: printed, and read back (docs/values.md).
#![tactic(auto)]

mod cursor;
mod devices;
mod fault;
mod judge;
mod laws;
mod line;
mod lines;
mod machine;
mod name;
mod numbers;
mod path;
mod print;
mod read;
mod shown;
mod subsections;
mod taken;
mod text;
mod whole;

pub use fault::{Values, ValuesFault};
pub use laws::line_law;
pub use name::print_path;
pub use print::print_values;
pub use vms_io::WriteFault;
pub use vms_spec::ValuesReason;
pub use whole::read_values;
