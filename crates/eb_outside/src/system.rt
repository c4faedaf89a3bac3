// Single reads, writes and flushes of the system, tried again where a signal interrupts them.
ghost use Rattle.std.specs.Prelude.{◌<◌, ◌≤◌, length, IfOk};
ghost use Rattle.eb_outside.specs.Causes.{Rose};

use crate::errors::Fault;
use std::io::{ErrorKind, Read, Write};

/// Counts one more fault. The count stands still at the top.
pub fn raise(faults: &mut u64) -> Fault
    ensures later { faults.old ≤ faults.new }
    ensures rose { Rose faults.old faults.new }
{
    *faults = faults.saturating_add(1);
    Fault
}

/// What one read gives: 0 at the end, or where there is no room.
pub fn read_once<R: Read>(reader: &mut R, into: &mut [u8]) -> Result<usize, Fault>
    ensures { IfOk result (λ n. n ≤ length into.new) }
{
    for _ in 0..u64::MAX {
        match reader.read(into) {
            Ok(count) => return Ok(count),
            Err(error) if error.kind() == ErrorKind::Interrupted => {}
            Err(_) => return Err(Fault),
        }
    }
    Err(Fault)
}

/// What one write takes, which must be something.
pub fn write_once<W: Write>(writer: &mut W, piece: &[u8]) -> Result<usize, Fault>
    ensures { IfOk result (λ n. (0 < n) × (n ≤ length piece.now)) }
{
    for _ in 0..u64::MAX {
        match writer.write(piece) {
            Ok(0) => return Err(Fault),
            Ok(count) => return Ok(count),
            Err(error) if error.kind() == ErrorKind::Interrupted => {}
            Err(_) => return Err(Fault),
        }
    }
    Err(Fault)
}

/// Passes on what a writer has kept back.
pub fn flush<W: Write>(writer: &mut W) -> Result<(), Fault> {
    for _ in 0..u64::MAX {
        match writer.flush() {
            Ok(()) => return Ok(()),
            Err(error) if error.kind() == ErrorKind::Interrupted => {}
            Err(_) => return Err(Fault),
        }
    }
    Err(Fault)
}
