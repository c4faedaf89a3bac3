// A block: 16,384 bytes of memory that contracts see as a list.
ghost use Rattle.std.specs.Prelude.{◌≡◌, ◌+◌, ◌≤◌, ◌<◌, ℕ, [], length, take, drop, replicate, IfOk};
ghost use Rattle.std.specs.Borrow.{sem};
ghost use Rattle.eb_block.specs.Bytes.{written, zero_bytes};
ghost use Rattle.eb_block.specs.LendsRange.{lends_range};

use crate::memory::{Base, Memory, allocate, deallocate};
use std::alloc::{AllocError, Global};
use std::marker::Model;

/// How many bytes a block has.
pub const BLOCK_BYTES: usize = 16384;

/// A block of 16,384 bytes. Contracts see the list of its bytes.
pub struct Block {
    base: Base,
    memory: Memory<Global>,
    alloc: Global,
}

impl Model for Block {
    ghost use Rattle.std.specs.Prelude.{ℕ, List};
    ghost use Rattle.eb_block.specs.Bytes.{IsBlock};

    ghost Value = { List ℕ };

    ghost view = { λ b. b.memory.bytes };

    ghost invariant = { λ b. IsBlock b.base.at b.memory.at b.memory.bytes b.memory.room };
}

impl Drop for Block {
    fn drop(self) {
        let Block {
            base,
            memory,
            alloc,
        } = self;
        deallocate(&alloc, base, memory);
    }
}

/// Writes zeros into the whole of new memory.
fn fill(base: Base, memory: &mut Memory<Global>)
    requires { (base.at ≡ memory.old.at) × (memory.old.bytes ≡ []) × (memory.old.room ≡ 16384) }
    ensures place { memory.new.at ≡ memory.old.at }
    ensures bytes { memory.new.bytes ≡ zero_bytes }
    ensures room { memory.new.room ≡ 0 }
{
    for index in 0..BLOCK_BYTES {
        memory.push(base, index, 0);
    }
}

impl Block {
    /// A new block of zeros.
    pub(crate) fn zeroed(alloc: Global) -> Result<Self, AllocError>
        ensures { IfOk result (λ block. block ≡ zero_bytes) }
    {
        let (base, mut memory) = allocate(&alloc)?;
        fill(base, &mut memory);
        Ok(Block {
            base,
            memory,
            alloc,
        })
    }

    /// The `len` bytes from `off` on, which lie in the block.
    pub fn read(&self, off: usize, len: usize) -> &[u8]
        requires { off + len ≤ 16384 }
        ensures value { result.now ≡ take len (drop off self.now) }
        ensures size { length self.now ≡ 16384 }
    {
        self.memory.slice(self.base, off, len)
    }

    /// The `len` bytes from `off` on, which lie in the block, to change.
    pub fn range_mut(&mut self, off: usize, len: usize) -> &mut [u8]
        requires { off + len ≤ 16384 }
        ensures* writes_back { sem 𝓛 (lends_range self.entry off len result) }
        ensures value { result.now ≡ take len (drop off self.old) }
        ensures size { length self.old ≡ 16384 }
    {
        self.memory.slice_mut(self.base, off, len)
    }

    /// Writes zeros into the whole block.
    pub(crate) fn clear(&mut self)
        ensures { self.new ≡ zero_bytes }
    {
        self.range_mut(0, BLOCK_BYTES).fill(0);
    }

    /// Writes bytes from `off` on; they end in the block.
    pub fn write(&mut self, off: usize, bytes: &[u8])
        requires { off + length bytes.now ≤ 16384 }
        ensures bytes { self.new ≡ written self.old off bytes.now }
        ensures size { length self.old ≡ 16384 }
    {
        self.range_mut(off, bytes.len()).copy_from_slice(bytes);
    }

    /// Copies `len` bytes from `from` to `to`. The ranges lie in the block and may overlap: the old bytes are copied.
    pub fn copy_in(&mut self, from: usize, to: usize, len: usize)
        requires { (from + len ≤ 16384) × (to + len ≤ 16384) }
        ensures bytes { self.new ≡ written self.old to (take len (drop from self.old)) }
        ensures size { length self.old ≡ 16384 }
    {
        self.range_mut(0, BLOCK_BYTES)
            .copy_within(from..from + len, to);
    }

    /// Copies `len` bytes of another block, from `from` on, to `to`. The ranges lie in the blocks.
    pub fn copy_from(&mut self, other: &Block, from: usize, to: usize, len: usize)
        requires { (from + len ≤ 16384) × (to + len ≤ 16384) }
        ensures bytes { self.new ≡ written self.old to (take len (drop from other.now)) }
        ensures size { (length self.old ≡ 16384) × (length other.now ≡ 16384) }
    {
        self.write(to, other.read(from, len));
    }
}
