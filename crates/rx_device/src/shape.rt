//! Why a JSON value is not what was asked for.

ghost use Rattle.std.specs.Prelude.{◌≡◌};

use std::alloc::{AllocError, AllocFailed};

/// Why a JSON value is not what was asked for.
#[derive(Clone, Copy, Debug, PartialEq, Eq)]
pub enum ShapeError {
    /// A member is missing, unknown or no such value.
    Shape,
    /// There was no memory for what it says.
    Memory,
}

impl From<AllocError> for ShapeError {
    ghost use Rattle.rx_device.specs.declared.shape.ShapeError.TheVariants.{Memory};

    ghost from_gives = { λ _ e. e ≡ Memory };

    fn from(_error: AllocError) -> ShapeError {
        ShapeError::Memory
    }
}

impl<T: Drop> From<AllocFailed<T>> for ShapeError {
    ghost use Rattle.rx_device.specs.declared.shape.ShapeError.TheVariants.{Memory};

    ghost from_gives = { λ _ e. e ≡ Memory };

    fn from(_error: AllocFailed<T>) -> ShapeError {
        ShapeError::Memory
    }
}
