// The memory of one block, and all that is done with raw pointers but `two`.
ghost use Rattle.std.specs.Prelude.{◌≡◌, ℕ, ◌+◌, ◌-◌, ◌<◌, ◌≤◌, List, [], ◌∷◌, ◌++◌, length, take, drop, IfOk, ⊤};
ghost use Rattle.std.specs.Borrow.{sem};
ghost use denote.RawPtr.{Ptr};
ghost use Rattle.eb_block.specs.Memory.{memory_owned, memory_lent};

use std::alloc::{AllocError, Allocator, Global};
use std::marker::{Model, PhantomData, Send, Sync};
use std::slice;

/// Where a block begins. It owns nothing.
pub(crate) struct Base {
    at: *mut u8,
}

impl Clone for Base {
    ghost is_clone = { λ x y. y ≡ x };

    ghost is_infallible = { λ _. ⊤ };

    fn clone(&self) -> Result<Base, AllocError> {
        Ok(*self)
    }
}

impl Copy for Base {}

unsafe impl Send for Base {}

unsafe impl Sync for Base {}

/// The owner of a block's memory: the bytes that were written, and behind them room for as many as are missing.
/// It has the right to free them by its allocator, and takes no space.
pub(crate) struct Memory<A: Allocator> {
    mark: PhantomData<*const (u8, A)>,
    ghost at: { Ptr },
    ghost bytes: { List ℕ },
    ghost room: { ℕ },
    ghost alloc: { A },
}

impl<A: Allocator> Model for Memory<A> {
    ghost also_owns = { λ m. memory_owned (A.dealloc_token m.alloc) m.at m.bytes m.room };

    ghost also_shares = { λ m _ κ. memory_lent m.at m.bytes κ };
}

unsafe impl<A: Allocator + Send> Send for Memory<A> {}

unsafe impl<A: Allocator> Sync for Memory<A> {}

/// New memory, in which nothing is written yet.
pub(crate) fn allocate(alloc: &Global) -> Result<(Base, Memory<Global>), AllocError>
    ensures { IfOk result (λ r. (r.1.at ≡ r.0.at) × (r.1.bytes ≡ []) × (r.1.room ≡ 16384)) }
{
    match alloc.allocate(16384, 1) {
        Ok(at) => Ok((Base { at }, Memory { mark: PhantomData })),
        Err(error) => Err(error),
    }
}

/// Frees the memory.
pub(crate) fn deallocate(alloc: &Global, base: Base, memory: Memory<Global>)
    requires { (memory.at ≡ base.at) × (length memory.bytes + memory.room ≡ 16384) }
{
    let Memory { mark: _ } = memory;
    unsafe { alloc.deallocate(base.at, 16384, 1) };
}

impl Memory<Global> {
    ghost use Rattle.eb_block.specs.Lends.{lends_bytes};

    /// Writes the next byte.
    pub(crate) fn push(&mut self, base: Base, index: usize, byte: u8)
        requires { (base.at ≡ self.old.at) × (index ≡ length self.old.bytes) × (0 < self.old.room) }
        ensures { (self.new.at ≡ self.old.at) × (self.new.bytes ≡ self.old.bytes ++ byte ∷ []) × (self.new.room ≡ self.old.room - 1) }
    {
        unsafe { base.at.add(index).write(byte) }
    }

    /// The `len` bytes from `off` on.
    pub(crate) fn slice(&self, base: Base, off: usize, len: usize) -> &[u8]
        requires { (base.at ≡ self.now.at) × (off + len ≤ length self.now.bytes) × (length self.now.bytes ≤ 16384) }
        ensures { result.now ≡ take len (drop off self.now.bytes) }
    {
        unsafe { slice::from_raw_parts(base.at.add(off), len) }
    }

    /// The `len` bytes from `off` on, to change.
    pub(crate) fn slice_mut(&mut self, base: Base, off: usize, len: usize) -> &mut [u8]
        requires { (base.at ≡ self.old.at) × (off + len ≤ length self.old.bytes) × (length self.old.bytes ≤ 16384) }
        ensures* writes_back { sem 𝓛 (lends_bytes self.entry off len result) }
        ensures value { result.now ≡ take len (drop off self.old.bytes) }
    {
        unsafe { slice::from_raw_parts_mut(base.at.add(off), len) }
    }
}
