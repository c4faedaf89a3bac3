// A pool and its blocks, each call once.
use eb_block::{BLOCK_BYTES, Block, Pool, two};
use std::alloc::Global;

/// Writes 9 and 8 to the places 6 and 7, lent at once.
fn mark(bytes: &mut [u8]) -> bool {
    if bytes.len() < 8 {
        return false;
    }
    let (front, back) = two(bytes, 6, 1, 7, 1);
    front.copy_from_slice(&[9]);
    back.copy_from_slice(&[8]);
    true
}

/// Writes into one block, copies to another and within it, and marks two places of that.
fn fill(one: &mut Block, other: &mut Block) -> bool {
    one.write(16380, &[1, 2, 3, 4]);
    other.copy_from(one, 16380, 0, 4);
    other.copy_in(0, 2, 4);
    mark(other.range_mut(0, BLOCK_BYTES))
}

/// Whether the first eight bytes of a block are those after writes and copies, and whether a block that was given back is
/// clean when it is taken again.
fn moved(alloc: Global) -> Option<[bool; 3]> {
    let mut pool = Pool::open(alloc);
    pool.reserve(2).ok()?;
    let mut one = pool.take();
    let mut other = pool.take();
    let marked = fill(&mut one, &mut other);
    pool.give(one);
    let again = pool.take();
    Some([
        marked,
        other.read(0, 8) == [1, 2, 1, 2, 3, 4, 9, 8].as_slice(),
        again.read(16380, 1) == [0].as_slice(),
    ])
}

#[test]
fn blocks_are_copied_and_given_back(rt: HostRuntime) {
    assert_eq!(rt; moved(rt.alloc()), Some([true; 3]));
}
