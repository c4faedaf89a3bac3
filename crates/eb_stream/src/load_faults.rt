// Why a section isn't loaded.
ghost use Rattle.std.specs.Prelude.{◌≡◌};

use eb_base::Memory;
use std::alloc::AllocError;

/// Why a section isn't loaded. The entities of the world are then as they were.
#[derive(Clone, Copy)]
pub enum LoadFault {
    /// Want of memory.
    Memory,
    /// The world would have more than 262,144 entities.
    WorldFull {
        /// How many entities it would have.
        count: u32,
    },
}

impl From<Memory> for LoadFault {
    ghost use Rattle.eb_stream.specs.declared.load_faults.LoadFault.TheVariants.{Memory};

    ghost from_gives = { λ _ e. e ≡ Memory };

    fn from(_: Memory) -> Self {
        LoadFault::Memory
    }
}

impl From<AllocError> for LoadFault {
    ghost use Rattle.eb_stream.specs.declared.load_faults.LoadFault.TheVariants.{Memory};

    ghost from_gives = { λ _ e. e ≡ Memory };

    fn from(_: AllocError) -> Self {
        LoadFault::Memory
    }
}
