//! The shipped sets as plain parts.
//!
//! The machine isa-0 has the section of a timer. Those from isa-1 on also have the pair of 8259A, the
//! 8253 or 8254, and the 16450 or 16550A. The machines clk-1 and clk-2 have an MC146818 in front of
//! the sections of isa-4.
#![tactic(auto)]

mod chips;
mod clock;
mod machines;
mod made;
mod rows;
mod serial;
mod sets;

pub use machines::{CLK_1, CLK_2, ISA_0, ISA_1, ISA_2, ISA_3, ISA_4, clock_machine, isa_machine};
pub use sets::{clock_parts, shipped_parts};
