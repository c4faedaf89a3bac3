// Two ranges of one slice, lent at once.
ghost use Rattle.std.specs.Prelude.{length};
ghost use Rattle.std.specs.Borrow.{sem};
ghost use Rattle.eb_block.specs.Bytes.{Apart, AreRanges};
ghost use Rattle.eb_block.specs.LendsTwo.{lends_two};

use std::slice;

/// Two ranges of a slice to change at once: `la` bytes from `a` on, and `lb` from `b` on, in either order and with
/// any gap. They lie in the slice and don't overlap.
pub fn two(bytes: &mut [u8], a: usize, la: usize, b: usize, lb: usize) -> (&mut [u8], &mut [u8])
    requires { Apart (length bytes.old) a la b lb }
    ensures* writes_back { sem 𝓛 (lends_two bytes.entry a la b lb result) }
    ensures values { AreRanges bytes.old a la b lb result.0.now result.1.now }
{
    let start = bytes.as_mut_ptr();
    unsafe {
        let first = start.add(a);
        let second = start.add(b);
        (
            slice::from_raw_parts_mut(first, la),
            slice::from_raw_parts_mut(second, lb),
        )
    }
}
