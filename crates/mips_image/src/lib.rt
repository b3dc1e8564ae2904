//! The file format of images (executable programs): writing an image as bytes, and reading it from bytes.
//!
//! Input: bytes, or an image and its version. Output: the image and version of the bytes or their first error, or the bytes of the image. This crate implements
//! `specs/ImageBytes.antt`.
#![tactic(auto)]

mod image_error;
mod reading;
mod stored_image;
mod writing;

pub use image_error::ImageError;
pub use reading::read_image;
pub use stored_image::{
    CHECKED_VERSION, DATA_BYTES_PLACE, ENTRY_PLACE, HEADER_BYTES, MAGIC, StoredImage,
    UNCHECKED_VERSION, VERSION_PLACE, WORDS_PLACE,
};
pub use writing::write_image;
