//! Images. An image is the state of one device, as a stream carries it.
#![tactic(auto)]

mod image;

pub use image::Image;
