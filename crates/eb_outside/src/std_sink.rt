// A sink over a writer of the system. It tells nothing of its bytes.
ghost use Rattle.std.specs.Prelude.{◌≡◌, None, ◌<◌, ◌≤◌, length, IfOk};

use crate::errors::{Fault, OutsideError};
use crate::sink::Sink;
use crate::system::{flush, raise, write_once};
use std::io::Write;
use std::marker::Model;

/// A sink over a writer, as the standard output. Contracts see how many faults it has counted.
#[derive(Drop)]
pub struct StdSink<W> {
    writer: W,
    faults: u64,
}

impl<W> Model for StdSink<W> {
    ghost use Rattle.std.specs.Prelude.{ℕ};

    ghost Value = { ℕ };

    ghost view = { λ s. s.faults };
}

impl<W> StdSink<W> {
    /// A sink that gives to the writer, with no fault yet. Takes no memory.
    pub fn open(writer: W) -> Self
        ensures { result ≡ 0 }
    {
        StdSink { writer, faults: 0 }
    }

    /// How many faults it has counted.
    pub fn faults(&self) -> u64
        ensures { result ≡ self.now }
    {
        self.faults
    }
}

impl<W: Write> Sink for StdSink<W> {
    ghost put = { λ _. None };

    ghost faults = { λ s. s };

    fn give(&mut self, piece: &[u8]) -> Result<usize, OutsideError> {
        match write_and_flush(&mut self.writer, piece) {
            Ok(count) => Ok(count),
            Err(Fault) => Err(raise(&mut self.faults).into()),
        }
    }
}

// What the writer takes is passed on, so that it is seen at once.
fn write_and_flush<W: Write>(writer: &mut W, piece: &[u8]) -> Result<usize, Fault>
    ensures { IfOk result (λ n. (0 < n) × (n ≤ length piece.now)) }
{
    let count = write_once(writer, piece)?;
    flush(writer)?;
    Ok(count)
}
