//! Blocks of 16,384 bytes of raw memory, and a pool of them. Contracts see a block as the list of its bytes.
#![tactic(auto)]

pub mod blocks;
mod memory;
pub mod pool;
pub mod ranges;

pub use blocks::{BLOCK_BYTES, Block};
pub use pool::Pool;
pub use ranges::two;
