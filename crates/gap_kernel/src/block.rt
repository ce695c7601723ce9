// The landing of one block.
ghost use Rattle.std.specs.Prelude.{◌≡◌, ℕ, ◌+◌, ◌<◌, ◌≤◌, length, slice_index, true};
ghost use Rattle.landing_kernel.specs.Characters.{is_critical};
ghost use Rattle.gap_kernel.specs.Landing.{LandsSpellings};
ghost use Rattle.gap_kernel.specs.Blocks.{HasOneEscape};
ghost use Rattle.std.specs.Simd.Lanes.{chunk};

use crate::lanes::{BLOCK, closed, gap_of};
use landing_kernel::land;
use std::simd::prelude::*;

/// How many characters were used, and how many bytes of theirs were put to their place.
#[derive(Clone, Copy, Debug, PartialEq, Eq)]
pub struct Landed {
    /// The characters.
    pub used: usize,
    /// The bytes, one for each plain character and one for each escape with the character behind it.
    pub landed: usize,
}

/// A buffer's numbers are bytes, which a contract can't see behind `&mut`.
#[inline(always)]
pub fn are_bytes(buf: &[u8])
    ensures { (i : ℕ) → slice_index buf.now i < 256 }
{
    let _ = buf;
}

/// Lands the 32 characters from place `from` on, where they are plain but for at most one escape that stands whole among them,
/// and else those before the first critical one.
#[inline(always)]
pub(crate) fn land_block(buf: &mut [u8], from: usize, to: usize) -> Landed
    requires ordered { to ≤ from }
    requires room { from + 32 < length buf.old }
    ensures within { (result.landed ≤ result.used) × (result.used ≤ 32) }
    ensures landed { LandsSpellings buf.old buf.new from to result.used result.landed }
    ensures stops { result.used < 32 → is_critical (slice_index buf.old (from + result.used)) ≡ true }
{
    let lanes = u8x32::from_slice(&buf[from..]);
    match gap_of(lanes) {
        Some(gap) => land_closed(buf, from, to, gap),
        None => land_plain(buf, from, to, from + BLOCK),
    }
}

// Lands a whole block, whose escape stands at a place.
#[inline(always)]
fn land_closed(buf: &mut [u8], from: usize, to: usize, gap: u32) -> Landed
    requires ordered { to ≤ from }
    requires room { from + 32 < length buf.old }
    requires gap { HasOneEscape (chunk from 32 buf.old) gap }
    ensures within { (result.landed ≤ 32) × (result.used ≡ 32) }
    ensures landed { LandsSpellings buf.old buf.new from to result.used result.landed }
{
    are_bytes(buf);
    let lanes = u8x32::from_slice(&buf[from..]);
    let next = u8x32::from_slice(&buf[from + 1..]);
    closed(gap as u8, lanes, next).copy_to_slice(&mut buf[to..]);
    let landed = if gap == 32 { BLOCK } else { BLOCK - 1 };
    Landed {
        used: BLOCK,
        landed,
    }
}

/// Lands plain characters from place `from` on, up to a critical one, and no further than place `end`.
#[inline(always)]
pub(crate) fn land_plain(buf: &mut [u8], from: usize, to: usize, end: usize) -> Landed
    requires ordered { (to ≤ from) × (from ≤ end) × (end ≤ length buf.old) }
    ensures within { (result.landed ≤ result.used) × (from + result.used ≤ end) }
    ensures landed { LandsSpellings buf.old buf.new from to result.used result.landed }
    ensures stops { from + result.used < end → is_critical (slice_index buf.old (from + result.used)) ≡ true }
{
    are_bytes(buf);
    let count = land(buf, from, to, end);
    Landed {
        used: count,
        landed: count,
    }
}
