// How a call at the outside fails: a counted fault, or want of memory.
ghost use Rattle.std.specs.Prelude.{◌≡◌};
ghost use Rattle.eb_outside.specs.declared.errors.OutsideError.TheVariants.{Fault, Memory};

use eb_base::Memory;
use std::alloc::{AllocError, AllocFailed};

/// The outside failed. The object that answers it has counted it.
#[derive(Clone, Copy, Debug, PartialEq, Eq)]
pub struct Fault;

/// Why a call that also needs memory failed.
#[derive(Clone, Copy, Debug, PartialEq, Eq)]
pub enum OutsideError {
    /// The outside failed. The object that answers it has counted it.
    Fault,
    /// Want of memory.
    Memory,
}

impl From<Fault> for OutsideError {
    ghost from_gives = { λ _ e. e ≡ Fault };

    fn from(_: Fault) -> Self {
        OutsideError::Fault
    }
}

impl From<Memory> for OutsideError {
    ghost from_gives = { λ _ e. e ≡ Memory };

    fn from(_: Memory) -> Self {
        OutsideError::Memory
    }
}

impl From<AllocError> for OutsideError {
    ghost from_gives = { λ _ e. e ≡ Memory };

    fn from(_: AllocError) -> Self {
        OutsideError::Memory
    }
}

impl<T: Drop> From<AllocFailed<T>> for OutsideError {
    ghost from_gives = { λ _ e. e ≡ Memory };

    fn from(_: AllocFailed<T>) -> Self {
        OutsideError::Memory
    }
}
