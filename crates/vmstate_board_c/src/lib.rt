//! A board for programs in C and Rust.
//!
//! The caller keeps a handle, which owns a board or none. The header is
//! `examples/embed/vmstate_board.h`.
#![tactic(auto)]

mod answer;
mod border;
mod handle;
mod held;
mod kinds;
mod parts;
mod question;
mod seal;
mod status;
mod stream;

pub use answer::{CAnswer, CNumber};
pub use border::{
    vmstate_board_ack, vmstate_board_advance, vmstate_board_free, vmstate_board_in,
    vmstate_board_new, vmstate_board_out, vmstate_board_receive, vmstate_board_wire,
};
pub use handle::Handle;
pub use question::{
    vmstate_board_character, vmstate_board_due, vmstate_board_has_port, vmstate_board_int,
    vmstate_board_level, vmstate_board_now, vmstate_board_output, vmstate_board_room,
};
pub use stream::{CRestored, vmstate_board_restore, vmstate_board_save};
