// What can become visible.
ghost use Rattle.std.specs.Prelude.{◌≡◌};

use eb_base::Text;

/// What becomes visible under a name.
pub trait Named: Drop {
    ghost use Rattle.std.specs.Prelude.{ℕ, List};

    ghost name_of: { Self → List ℕ };

    /// The name under which it is found. Takes no memory.
    fn name(&self) -> &[u8]
        ensures { result.now ≡ name_of self.now };
}

/// A name alone.
impl Named for Text {
    ghost name_of = { λ text. text };

    fn name(&self) -> &[u8] {
        self.bytes()
    }
}
