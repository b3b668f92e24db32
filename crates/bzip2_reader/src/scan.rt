// Where blocks may begin.
ghost use Rattle.std.specs.Prelude.{◌≤◌, IfSome};

use crate::bits::word_at;

/// The 48 bits that begin a block.
pub(crate) const MAGIC: u64 = 0x3141_5926_5359;

/// Finds the next bit from this one on at which the 48 bits of a block's beginning stand, and a byte follows them.
pub(crate) fn next_block(bytes: &[u8], at: usize) -> Option<usize>
    ensures { IfSome result (λ found. at ≤ found) }
{
    let mut near = [false; 256];
    for shift in 0..8u32 {
        near[((MAGIC >> (32 + shift)) & 255) as usize] = true;
    }
    for start in at / 8..bytes.len().saturating_sub(6) {
        if near[usize::from(bytes[start + 1])] {
            let word = word_at(bytes, start.wrapping_mul(8));
            for shift in 0..8u32 {
                let found = start.wrapping_mul(8).wrapping_add(shift as usize);
                if (word >> (16 - shift)) & 0xFFFF_FFFF_FFFF == MAGIC && found >= at {
                    return Some(found);
                }
            }
        }
    }
    None
}
