// A source in memory, for tests: it gives the bytes in pieces, and chosen calls fail.
ghost use Rattle.std.specs.Prelude.{◌≡◌, ◌<◌, ◌≤◌, ◌↔◌, Some, length, min, take, drop, IsErr, IsTrue, IfOk, OnErr};
ghost use Rattle.eb_outside.specs.Calls.{no_calls, next_fails, counted};
ghost use Rattle.eb_outside.specs.Causes.{HasCause};
ghost use Rattle.eb_outside.specs.InMemory.{SourceState, amount};
ghost use Rattle.eb_outside.specs.Streams.{TakesKnown};

use crate::calls::Calls;
use crate::errors::Fault;
use crate::source::Source;
use std::marker::Model;

/// A source of bytes in memory. Each call gives as many as there are, as the buffer holds and as the size of a piece
/// allows.
#[derive(Debug, Drop)]
pub struct MemSource {
    bytes: Vec<u8>,
    at: usize,
    piece: usize,
    calls: Calls,
}

impl Model for MemSource {
    ghost use Rattle.std.specs.Prelude.{◌<◌, ◌≤◌, length, drop};
    ghost use Rattle.eb_outside.specs.InMemory.{SourceState};

    ghost Value = { SourceState };

    ghost view = { λ s. record { left = drop s.at s.bytes.items; piece = s.piece; calls = s.calls } };

    ghost invariant = { λ s. (0 < s.piece) × (s.at ≤ length s.bytes.items) };
}

impl MemSource {
    /// A source of these bytes, at most `piece` of them in a call, where the calls of these numbers, from 0, fail.
    /// Takes no memory.
    pub fn open(bytes: Vec<u8>, piece: usize, fails: Vec<u32>) -> Self
        requires { 0 < piece }
        ensures { result ≡ record { left = bytes.items; piece = piece; calls = no_calls fails.items } }
    {
        MemSource {
            bytes,
            at: 0,
            piece,
            calls: Calls::new(fails),
        }
    }

    /// The bytes that are still to come. Takes no memory.
    pub fn left(&self) -> &[u8]
        ensures { result.now ≡ self.now.left }
    {
        &self.bytes[self.at..]
    }

    /// How many calls have failed.
    pub fn faults(&self) -> u64
        ensures { result ≡ self.now.calls.faults }
    {
        self.calls.faults()
    }
}

impl Source for MemSource {
    ghost left = { λ s. Some s.left };

    ghost faults = { λ s. s.calls.faults };

    fn take(&mut self, into: &mut [u8]) -> Result<usize, Fault>
        requires { 0 < length into.old }
        ensures fits { IfOk result (λ n. n ≤ length into.new) }
        ensures bytes { TakesKnown (Some self.old.left) (Some self.new.left) result into.new }
        ensures cause { HasCause self.old.calls.faults self.new.calls.faults result }
        // A call fails exactly where its number is among those that fail, and else gives all that it may.
        ensures failed { IsErr result ↔ IsTrue (next_fails self.old.calls) }
        ensures amount { IfOk result (λ n. n ≡ amount self.old (length into.old)) }
        ensures calls { self.new.calls ≡ counted self.old.calls }
        ensures piece { self.new.piece ≡ self.old.piece }
    {
        self.calls.next()?;
        let count = copy_front(&self.bytes[self.at..], self.piece, into);
        self.at += count;
        Ok(count)
    }
}

// Copies the first bytes, at most so many, to the front of a buffer, and answers how many fit.
fn copy_front(from: &[u8], most: usize, into: &mut [u8]) -> usize
    ensures amount { result ≡ min most (min (length from.now) (length into.old)) }
    ensures front { take result into.new ≡ take result from.now }
{
    let count = most.min(from.len().min(into.len()));
    into[..count].copy_from_slice(&from[..count]);
    count
}
