// A stream of bytes that come in.
ghost use Rattle.std.specs.Prelude.{◌<◌, ◌≤◌, ℕ, List, Option, length, IfOk};
ghost use Rattle.eb_outside.specs.Causes.{HasCause};
ghost use Rattle.eb_outside.specs.Streams.{TakesKnown};

use crate::errors::Fault;

/// A stream of bytes that come in, in pieces of any size.
pub trait Source {
    /// The bytes that are still to come, where the source tells them.
    ghost left: { Self → Option (List ℕ) };

    /// How often the outside has failed.
    ghost faults: { Self → ℕ };

    /// Takes some bytes to the front of a buffer, and answers how many: 0 exactly at the end of the stream.
    /// After a fault all are still to come.
    fn take(&mut self, into: &mut [u8]) -> Result<usize, Fault>
        requires { 0 < length into.old }
        ensures fits { IfOk result (λ n. n ≤ length into.new) }
        ensures bytes { TakesKnown (left self.old) (left self.new) result into.new }
        ensures cause { HasCause (faults self.old) (faults self.new) result };
}
