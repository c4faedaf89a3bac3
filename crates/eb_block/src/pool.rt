// A pool of blocks: blocks that are spare, and how many are out.
ghost use Rattle.std.specs.Prelude.{◌≡◌, ◌+◌, ◌-◌, ◌≤◌, ◌<◌, length, max, OnOk, OnErr};
ghost use Rattle.eb_block.specs.Bytes.{zero_bytes};
ghost use Rattle.eb_block.specs.Counts.{counts};

use crate::blocks::Block;
use eb_base::Memory;
use std::alloc::{AllocError, Global};
use std::marker::Model;

/// A pool of blocks. Contracts see how many are spare and how many are out. There is room in it for all of them, so
/// that giving one back takes no memory; and those that are spare hold zeros, so that taking one writes nothing.
#[derive(Drop)]
pub struct Pool {
    blocks: Vec<Block>,
    out: usize,
    alloc: Global,
}

impl Model for Pool {
    ghost use Rattle.std.specs.Prelude.{length, vec_capacity};
    ghost use Rattle.eb_block.specs.Counts.{Counts, IsPool, counts};

    ghost Value = { Counts };

    ghost view = { λ p. counts (length p.blocks.items) p.out };

    ghost invariant = { λ p. IsPool p.blocks.items p.out (vec_capacity p.blocks) };
}

impl Pool {
    /// A pool with no block. Takes no memory.
    pub fn open(alloc: Global) -> Self
        ensures { result ≡ counts 0 0 }
    {
        Pool {
            blocks: Vec::new(alloc),
            out: 0,
            alloc,
        }
    }

    // One block more.
    fn add_one(&mut self) -> Result<(), AllocError>
        ensures ok { OnOk result (self.new ≡ counts (self.old.spare + 1) self.old.out) }
        ensures err { OnErr result (self.new ≡ self.old) }
    {
        self.blocks.reserve(self.out + 1)?;
        let block = Block::zeroed(self.alloc)?;
        self.blocks.push_reserved(block);
        Ok(())
    }

    // As many blocks more as make so many spare. Where there is no memory, those that were made stay.
    fn add(&mut self, blocks: usize) -> Result<(), AllocError>
        ensures ok { OnOk result (self.new ≡ counts (max self.old.spare blocks) self.old.out) }
        ensures kept { self.old.spare ≤ self.new.spare }
        ensures out { self.new.out ≡ self.old.out }
    {
        while blocks > self.blocks.len() {
            self.add_one()?;
        }
        Ok(())
    }

    // Gives spare blocks up, so that so many are left.
    fn shrink(&mut self, blocks: usize)
        requires { blocks ≤ self.old.spare }
        ensures { self.new ≡ counts blocks self.old.out }
    {
        self.blocks.truncate(blocks);
    }

    /// Makes so many blocks spare; none where as many are. Where there is no memory, the pool is as it was.
    pub fn reserve(&mut self, blocks: u32) -> Result<(), Memory>
        ensures ok { OnOk result (self.new ≡ counts (max self.old.spare blocks) self.old.out) }
        ensures err { OnErr result (self.new ≡ self.old) }
    {
        let spare = self.blocks.len();
        if self.add(blocks as usize).is_err() {
            self.shrink(spare);
            return Err(Memory);
        }
        Ok(())
    }

    /// A block of zeros. Takes no memory.
    pub fn take(&mut self) -> Block
        requires { 0 < self.old.spare }
        ensures counts { self.new ≡ counts (self.old.spare - 1) (self.old.out + 1) }
        ensures zeros { result ≡ zero_bytes }
    {
        let at = self.blocks.len() - 1;
        self.out += 1;
        self.blocks.remove(at)
    }

    /// Takes a block back, and writes zeros into it. Takes no memory.
    pub fn give(&mut self, mut block: Block)
        requires { 0 < self.old.out }
        ensures { self.new ≡ counts (self.old.spare + 1) (self.old.out - 1) }
    {
        block.clear();
        self.blocks.push_reserved(block);
        self.out -= 1;
    }
}
