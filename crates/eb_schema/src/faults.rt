// Why a document is no schema.
ghost use Rattle.std.specs.Prelude.{◌≡◌};
ghost use Rattle.eb_schema.specs.declared.faults.SchemaFault.TheVariants.{Memory};

use eb_json::FormFault;
use std::alloc::{AllocError, AllocFailed};

/// Why a document is no schema. Each place is the number of a node in preorder, and 4294967295 from that
/// number on. The form is tested first; of the other refusals the one of the least place is given.
#[derive(Clone, Copy, Debug, PartialEq, Eq)]
pub enum SchemaFault {
    /// Want of memory.
    Memory,
    /// The first node that isn't what the form asks.
    NotForm { place: u32 },
    /// A name that an earlier type or field of the same list has.
    NameTaken { place: u32 },
    /// A number that an earlier type of the same list has.
    NumberTaken { place: u32 },
    /// A list of more than 16 fields, or of more than 128 types.
    TooMany { place: u32 },
    /// A kind that there isn't, or that isn't allowed there.
    BadKind { place: u32 },
    /// A copy that names no component type, or one with other fields, or one that an earlier type copies to.
    CopyMismatch { place: u32 },
}

impl From<AllocError> for SchemaFault {
    ghost from_gives = { λ _ fault. fault ≡ Memory };

    fn from(_: AllocError) -> Self {
        SchemaFault::Memory
    }
}

impl<T: Drop> From<AllocFailed<T>> for SchemaFault {
    ghost from_gives = { λ _ fault. fault ≡ Memory };

    fn from(_: AllocFailed<T>) -> Self {
        SchemaFault::Memory
    }
}

impl From<eb_base::Memory> for SchemaFault {
    ghost from_gives = { λ _ fault. fault ≡ Memory };

    fn from(_: eb_base::Memory) -> Self {
        SchemaFault::Memory
    }
}

impl From<FormFault> for SchemaFault {
    ghost use Rattle.eb_schema.specs.SchemaFaults.{of_form};

    ghost from_gives = { λ fault made. made ≡ of_form fault };

    fn from(fault: FormFault) -> Self {
        match fault {
            FormFault::Memory => SchemaFault::Memory,
            FormFault::Wrong { place } => SchemaFault::NotForm { place },
        }
    }
}
