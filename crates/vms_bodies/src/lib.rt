//! Laws of the parts of the format. They say which sets are good, that a path's cell is one of the
//! device's, that the test of readiness decides the relation, and that zeroed bytes are bytes of
//! the slots.
#![tactic(auto)]

pub mod laws;
