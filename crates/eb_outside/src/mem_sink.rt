// A sink in memory, for tests: it takes each piece whole, and chosen calls fail.
ghost use Rattle.std.specs.Prelude.{◌≡◌, ◌<◌, ◌≤◌, ◌↔◌, Some, [], length, take, IsErrOf, IsTrue, IfOk, OnErr};
ghost use Rattle.eb_outside.specs.declared.errors.OutsideError.TheVariants.{Fault};
ghost use Rattle.eb_outside.specs.Calls.{no_calls, next_fails, counted};
ghost use Rattle.eb_outside.specs.Causes.{HasFaultCause};
ghost use Rattle.eb_outside.specs.InMemory.{SinkState};
ghost use Rattle.eb_outside.specs.Streams.{appended};

use crate::calls::Calls;
use crate::errors::OutsideError;
use crate::sink::Sink;
use std::alloc::Global;
use std::marker::Model;

/// A sink that holds what it was given.
#[derive(Debug, Drop)]
pub struct MemSink {
    bytes: Vec<u8>,
    calls: Calls,
}

impl Model for MemSink {
    ghost use Rattle.eb_outside.specs.InMemory.{SinkState};

    ghost Value = { SinkState };

    ghost view = { λ s. record { put = s.bytes.items; calls = s.calls } };
}

impl MemSink {
    /// An empty sink, where the calls of these numbers, from 0, fail. Takes no memory.
    pub fn open(alloc: Global, fails: Vec<u32>) -> Self
        ensures { result ≡ record { put = []; calls = no_calls fails.items } }
    {
        MemSink {
            bytes: Vec::new(alloc),
            calls: Calls::new(fails),
        }
    }

    /// What the sink holds. Takes no memory.
    pub fn bytes(&self) -> &[u8]
        ensures { result.now ≡ self.now.put }
    {
        &self.bytes
    }

    /// How many calls have failed.
    pub fn faults(&self) -> u64
        ensures { result ≡ self.now.calls.faults }
    {
        self.calls.faults()
    }
}

impl Sink for MemSink {
    ghost put = { λ s. Some s.put };

    ghost faults = { λ s. s.calls.faults };

    fn give(&mut self, piece: &[u8]) -> Result<usize, OutsideError>
        requires { 0 < length piece.now }
        ensures some { IfOk result (λ n. (0 < n) × (n ≤ length piece.now)) }
        ensures bytes { IfOk result (λ n. Some self.new.put ≡ appended (Some self.old.put) (take n piece.now)) }
        ensures same { OnErr result (Some self.new.put ≡ Some self.old.put) }
        ensures cause { HasFaultCause self.old.calls.faults self.new.calls.faults result }
        // A call fails with a fault exactly where its number is among those that fail, and else takes the whole piece.
        ensures failed { IsErrOf result Fault ↔ IsTrue (next_fails self.old.calls) }
        ensures whole { IfOk result (λ n. n ≡ length piece.now) }
        ensures calls { self.new.calls ≡ counted self.old.calls }
    {
        self.calls.next()?;
        self.bytes.extend_from_slice(piece)?;
        Ok(piece.len())
    }
}
