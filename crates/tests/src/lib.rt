//! Tests of what no command reaches:
//!
//! - where cells are in sets and images, and several loads with one loader;
//! - parts that no file can describe, and a set that is written as a file;
//! - the bytes of kinds and marks, and hooks;
//! - the real objects of the outside;
//! - what no board shows of the devices.
//!
//! They are a crate of their own, since a crate with tests is proved twice. Each test is proved
//! itself. A test that holds a set, an image or a loader across its `?` and asserts takes long to
//! prove. So it passes them to a function that borrows them, and rows are statics.
#![tactic(auto)]

#[cfg(test)]
mod hooks;
#[cfg(test)]
mod kinds;
#[cfg(test)]
mod loads;
#[cfg(test)]
mod marks;
#[cfg(test)]
mod outside;
#[cfg(test)]
mod parts;
#[cfg(test)]
mod pic;
#[cfg(test)]
mod pit;
#[cfg(test)]
mod set_files;
#[cfg(test)]
mod sets;
