// A source over a reader of the system. It tells nothing of its bytes.
ghost use Rattle.std.specs.Prelude.{◌≡◌, None};

use crate::errors::Fault;
use crate::source::Source;
use crate::system::{raise, read_once};
use std::io::Read;
use std::marker::Model;

/// A source over a reader, as the standard input. Contracts see how many faults it has counted.
#[derive(Drop)]
pub struct StdSource<R> {
    reader: R,
    faults: u64,
}

impl<R> Model for StdSource<R> {
    ghost use Rattle.std.specs.Prelude.{ℕ};

    ghost Value = { ℕ };

    ghost view = { λ s. s.faults };
}

impl<R> StdSource<R> {
    /// A source of what the reader gives, with no fault yet. Takes no memory.
    pub fn open(reader: R) -> Self
        ensures { result ≡ 0 }
    {
        StdSource { reader, faults: 0 }
    }

    /// How many faults it has counted.
    pub fn faults(&self) -> u64
        ensures { result ≡ self.now }
    {
        self.faults
    }
}

impl<R: Read> Source for StdSource<R> {
    ghost left = { λ _. None };

    ghost faults = { λ s. s };

    // What one read gives, so that a person at a terminal is answered at once.
    fn take(&mut self, into: &mut [u8]) -> Result<usize, Fault> {
        match read_once(&mut self.reader, into) {
            Ok(count) => Ok(count),
            Err(Fault) => Err(raise(&mut self.faults)),
        }
    }
}
