// A stream of bytes that go out.
ghost use Rattle.std.specs.Prelude.{◌≡◌, ◌<◌, ◌≤◌, ℕ, List, Option, length, take, IfOk, OnErr};
ghost use Rattle.eb_outside.specs.Causes.{HasFaultCause};
ghost use Rattle.eb_outside.specs.Streams.{appended};

use crate::errors::OutsideError;

/// A stream of bytes that go out, in pieces of any size.
pub trait Sink {
    /// The bytes that it holds, where the sink tells them.
    ghost put: { Self → Option (List ℕ) };

    /// How often the outside has failed.
    ghost faults: { Self → ℕ };

    /// Gives the sink some bytes from the front of a piece, at least one, and answers how many it took.
    /// After an error it holds what it held before.
    fn give(&mut self, piece: &[u8]) -> Result<usize, OutsideError>
        requires { 0 < length piece.now }
        ensures some { IfOk result (λ n. (0 < n) × (n ≤ length piece.now)) }
        ensures bytes { IfOk result (λ n. put self.new ≡ appended (put self.old) (take n piece.now)) }
        ensures same { OnErr result (put self.new ≡ put self.old) }
        ensures cause { HasFaultCause (faults self.old) (faults self.new) result };
}
