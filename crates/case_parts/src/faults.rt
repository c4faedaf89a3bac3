// What keeps a file of cases from being played.
use eb_base::Memory;
use std::alloc::{AllocError, AllocFailed};
use std::{fmt, io};

/// Why a file of cases can't be played.
#[derive(Clone, Copy, Debug, PartialEq, Eq)]
pub enum CaseFault {
    /// Want of memory.
    Memory,
    /// The folder or the file can't be read, or the output can't be written.
    Outside,
    /// What begins at a line of the file, counted from 1, isn't as the format wants it.
    Line(u64, &'static str),
}

impl From<Memory> for CaseFault {
    fn from(_: Memory) -> Self {
        CaseFault::Memory
    }
}

impl From<AllocError> for CaseFault {
    fn from(_: AllocError) -> Self {
        CaseFault::Memory
    }
}

impl<T: Drop> From<AllocFailed<T>> for CaseFault {
    fn from(_: AllocFailed<T>) -> Self {
        CaseFault::Memory
    }
}

impl From<io::Error> for CaseFault {
    fn from(_: io::Error) -> Self {
        CaseFault::Outside
    }
}

impl fmt::Display for CaseFault {
    fn fmt<W: fmt::Write>(&self, f: &mut fmt::Formatter<W>) -> fmt::Result {
        match self {
            CaseFault::Memory => f.write_str("no memory"),
            CaseFault::Outside => f.write_str("can't be read, or the output can't be written"),
            CaseFault::Line(line, what) => write!(f, "line {line}: {what}"),
        }
    }
}
