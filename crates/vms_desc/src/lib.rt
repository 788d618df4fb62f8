//! Description sets: the devices whose sections a stream has, and the contents of these sections.
//!
//! A [`DescSet`] is well formed, so the crates above take one and don't check it again.
#![tactic(auto)]

mod asks;
mod defaults;
mod eval;
mod forms;
mod judged;
mod names;
mod path;
mod set;
mod spots;
mod table;

pub use asks::PartFields;
pub use eval::{Cells, Numbers};
pub use names::{find_name, find_sub, is_one_of};
pub use set::DescSet;
pub use vms_parts::{
    CellForm, Count, Desc, Device, Field, Listed, Part, Parts, Place, Rel, Sub, Test, Text, Whose,
};
pub use vms_rules::DescFault;
pub use vms_spots::Spot;
