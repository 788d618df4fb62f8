//! The parts of description sets as plain data, well formed or not, and the sizes of their
//! descriptions.
//!
//! The types follow VMState's `VMStateDescription` and `VMStateField`.
#![tactic(auto)]

mod capacities;
mod listed;
mod sizes;
mod types;

pub use capacities::least_capacities;
pub use listed::{Listed, Text};
pub use sizes::{Measure, capacity, item_size, size_of_fields, size_of_subs, struct_sizes};
pub use types::{CellForm, Desc, Device, Field, Parts, Sub, Test};
pub use vms_spec::{Count, Part, Place, Rel, Whose};
