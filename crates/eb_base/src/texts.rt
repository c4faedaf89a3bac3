// Bytes that a public type holds: contracts see the list of bytes alone.
ghost use Rattle.std.specs.Prelude.{◌≡◌, ℕ, ◌↔◌, List, IfOk, IsTrue};

use crate::memory::Memory;
use std::alloc::Global;
use std::marker::Model;

/// A text, as a list of bytes of any values. Contracts see that list.
#[derive(Debug, Drop)]
pub struct Text {
    inner: Vec<u8>,
}

impl Model for Text {
    ghost Value = { List ℕ };

    ghost view = { λ t. t.inner.items };
}

impl Text {
    /// The text of these bytes.
    pub fn of(alloc: Global, bytes: &[u8]) -> Result<Self, Memory>
        ensures { IfOk result (λ t. t ≡ bytes.now) }
    {
        Ok(Text {
            inner: Vec::from_slice(alloc, bytes)?,
        })
    }

    /// The text that takes over these bytes. Takes no memory.
    pub fn from_vec(bytes: Vec<u8>) -> Self
        ensures { result ≡ bytes.items }
    {
        Text { inner: bytes }
    }

    /// The bytes of the text. Takes no memory.
    pub fn bytes(&self) -> &[u8]
        ensures { result.now ≡ self.now }
    {
        self.inner.as_slice()
    }

    /// The bytes of the text, which is used up. Takes no memory.
    pub fn into_vec(self) -> Vec<u8>
        ensures { result.items ≡ self }
    {
        self.inner
    }

    /// Whether these are the bytes of the text. Takes no memory.
    pub fn is(&self, bytes: &[u8]) -> bool
        ensures { IsTrue result ↔ (self.now ≡ bytes.now) }
    {
        self.inner.as_slice() == bytes
    }

    /// An equal text.
    pub fn copy(&self, alloc: Global) -> Result<Self, Memory>
        ensures { IfOk result (λ t. t ≡ self.now) }
    {
        Text::of(alloc, self.bytes())
    }
}
