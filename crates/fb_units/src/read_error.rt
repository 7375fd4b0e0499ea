// Why a reader returns no value.
ghost use Rattle.std.specs.Prelude.{◌≡◌};
ghost use Rattle.fb_units.specs.declared.read_error.ReadError.TheVariants.{NoMemory};

use std::alloc::{AllocError, AllocFailed};

/// Why an input wasn't read.
#[derive(Debug, PartialEq, Eq, Drop)]
pub enum ReadError<F> {
    /// The input is refused.
    Fault(F),
    /// Out of memory, which says nothing about the input.
    NoMemory,
}

impl<F> From<crate::NoMemory> for ReadError<F> {
    ghost from_gives = { λ _ error. error ≡ NoMemory };

    fn from(_: crate::NoMemory) -> ReadError<F> {
        ReadError::NoMemory
    }
}

impl<F> From<AllocError> for ReadError<F> {
    ghost from_gives = { λ _ error. error ≡ NoMemory };

    fn from(_: AllocError) -> ReadError<F> {
        ReadError::NoMemory
    }
}

impl<F, T: Drop> From<AllocFailed<T>> for ReadError<F> {
    ghost from_gives = { λ _ error. error ≡ NoMemory };

    fn from(_: AllocFailed<T>) -> ReadError<F> {
        ReadError::NoMemory
    }
}
