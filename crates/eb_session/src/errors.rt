// Why a session ends before its input does.
ghost use Rattle.std.specs.Prelude.{◌≡◌};
ghost use Rattle.eb_session.specs.Ends.{session_end_of};

use eb_base::{Memory, Text};
use eb_outside::OutsideError;
use std::alloc::AllocError;

/// Why a line has no answer. The session isn't used again then.
#[derive(Clone, Copy)]
pub enum SessionEnd {
    /// Want of memory.
    Memory,
    /// A call of the shelf failed, and the shelf counted it.
    Shelf,
}

/// Why a session doesn't open.
#[derive(Drop)]
pub enum OpenEnd {
    /// Want of memory.
    Memory,
    /// A call of the shelf failed, and the shelf counted it.
    Shelf,
    /// The folder holds no project that can be opened.
    Refused {
        /// The line that says which file is refused, and why, with its line feed.
        line: Text,
    },
}

/// Why a file isn't read as what it is to hold.
#[derive(Drop)]
pub enum Refusal {
    /// Want of memory.
    Memory,
    /// The file is refused.
    Line {
        /// The line that says which file is refused, and why, with its line feed.
        line: Text,
    },
}

impl From<Memory> for Refusal {
    ghost use Rattle.eb_session.specs.declared.errors.Refusal.TheVariants.{Memory};

    ghost from_gives = { λ _ e. e ≡ Memory };

    fn from(_: Memory) -> Self {
        Refusal::Memory
    }
}

impl From<Refusal> for OpenEnd {
    ghost use Rattle.eb_session.specs.Ends.{open_end_of_refusal};

    ghost from_gives = { λ refusal end. end ≡ open_end_of_refusal refusal };

    fn from(refusal: Refusal) -> Self {
        match refusal {
            Refusal::Memory => OpenEnd::Memory,
            Refusal::Line { line } => OpenEnd::Refused { line },
        }
    }
}

impl From<Memory> for SessionEnd {
    ghost use Rattle.eb_session.specs.declared.errors.SessionEnd.TheVariants.{Memory};

    ghost from_gives = { λ _ e. e ≡ Memory };

    fn from(_: Memory) -> Self {
        SessionEnd::Memory
    }
}

impl From<AllocError> for SessionEnd {
    ghost use Rattle.eb_session.specs.declared.errors.SessionEnd.TheVariants.{Memory};

    ghost from_gives = { λ _ e. e ≡ Memory };

    fn from(_: AllocError) -> Self {
        SessionEnd::Memory
    }
}

impl From<OutsideError> for SessionEnd {
    ghost from_gives = { λ error end. end ≡ session_end_of error };

    fn from(error: OutsideError) -> Self {
        match error {
            OutsideError::Fault => SessionEnd::Shelf,
            OutsideError::Memory => SessionEnd::Memory,
        }
    }
}

impl From<Memory> for OpenEnd {
    ghost use Rattle.eb_session.specs.declared.errors.OpenEnd.TheVariants.{Memory};

    ghost from_gives = { λ _ e. e ≡ Memory };

    fn from(_: Memory) -> Self {
        OpenEnd::Memory
    }
}

impl From<OutsideError> for OpenEnd {
    ghost use Rattle.eb_session.specs.Ends.{open_end_of};

    ghost from_gives = { λ error end. end ≡ open_end_of error };

    fn from(error: OutsideError) -> Self {
        match error {
            OutsideError::Fault => OpenEnd::Shelf,
            OutsideError::Memory => OpenEnd::Memory,
        }
    }
}
