//! Images: the enclaves that TOML documents spell.
#![tactic(auto)]

mod built;
mod clusters;
mod document;
mod fault;
mod image;
mod keys;
mod laws;
mod numbers;
mod pages;
mod reading;
mod spelled;

pub use fault::ImageFault;
pub use image::Image;
pub use laws::{
    blocks_tell_the_image, memory_is_no_refusal, numbers_of_code, numbers_of_tcs, pages_are_whole,
    read_images_are_whole,
};
