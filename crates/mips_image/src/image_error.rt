//! The errors of reading an image (an executable program) from bytes.

ghost use Rattle.std.specs.Prelude.{◌≡◌};
ghost use Rattle.mips_image.specs.declared.image_error.ImageError.TheVariants.{Memory};

use std::alloc::{AllocError, AllocFailed};

/// Why bytes are no image. The letter and number are the ones that notes print.
#[derive(Clone, Copy)]
pub enum ImageError {
    /// Memory ran out.
    Memory,
    /// Wrong magic.
    I1,
    /// Unknown version.
    I2,
    /// Too short.
    I3,
    /// Sizes out of range.
    I4,
    /// Bytes after the end.
    I5,
}

impl From<AllocError> for ImageError {
    ghost from_gives = { λ _ e. e ≡ Memory };

    fn from(_error: AllocError) -> ImageError {
        ImageError::Memory
    }
}

impl<T: Drop> From<AllocFailed<T>> for ImageError {
    ghost from_gives = { λ _ e. e ≡ Memory };

    fn from(_error: AllocFailed<T>) -> ImageError {
        ImageError::Memory
    }
}
