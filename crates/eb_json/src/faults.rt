// What a reader of a form answers where there is no value.
ghost use Rattle.std.specs.Prelude.{◌≡◌};
ghost use Rattle.eb_json.specs.declared.faults.FormFault.TheVariants.{Memory};

use std::alloc::{AllocError, AllocFailed};

/// Why a form was not read.
#[derive(Clone, Copy, Debug, PartialEq, Eq)]
pub enum FormFault {
    /// Want of memory.
    Memory,
    /// A node isn't what the form asks there.
    Wrong {
        /// The place of the first such node, or 4294967295 from that number on.
        place: u32,
    },
}

impl From<AllocError> for FormFault {
    ghost from_gives = { λ _ fault. fault ≡ Memory };

    fn from(_: AllocError) -> Self {
        FormFault::Memory
    }
}

impl<T: Drop> From<AllocFailed<T>> for FormFault {
    ghost from_gives = { λ _ fault. fault ≡ Memory };

    fn from(_: AllocFailed<T>) -> Self {
        FormFault::Memory
    }
}

impl From<eb_base::Memory> for FormFault {
    ghost from_gives = { λ _ fault. fault ≡ Memory };

    fn from(_: eb_base::Memory) -> Self {
        FormFault::Memory
    }
}
