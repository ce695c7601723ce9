// What is done with the 32 characters of a block at once.
ghost use Rattle.std.specs.Prelude.{◌≡◌, ℕ, ◌<◌, ◌==◌, length, map, slice_index, IfSome};
ghost use Rattle.std.specs.Simd.Lanes.{mask_l};
ghost use Rattle.yenc_bytes.specs.DataLineReading.{is_stray};
ghost use Rattle.gap_kernel.specs.Blocks.{HasOneEscape, byte_at};

use std::simd::prelude::*;

/// The characters of a block.
pub(crate) const BLOCK: usize = 32;

const PLACES: [u8; 32] = [
    0, 1, 2, 3, 4, 5, 6, 7, 8, 9, 10, 11, 12, 13, 14, 15, 16, 17, 18, 19, 20, 21, 22, 23, 24, 25,
    26, 27, 28, 29, 30, 31,
];

// Bit k says that lane k is a NUL, LF or CR.
#[inline(always)]
fn stray_marks(lanes: u8x32) -> u64
    ensures { result ≡ mask_l (map is_stray lanes) }
{
    let found = lanes.simd_eq(u8x32::splat(0))
        | (lanes.simd_eq(u8x32::splat(b'\n')) | lanes.simd_eq(u8x32::splat(b'\r')));
    found.to_bitmask()
}

// Bit k says that lane k is a `=`.
#[inline(always)]
fn escape_marks(lanes: u8x32) -> u64
    ensures { result ≡ mask_l (map (λ x. x == 61) lanes) }
{
    lanes.simd_eq(u8x32::splat(b'=')).to_bitmask()
}

/// The place of the one escape that stands whole in a block of characters that are otherwise plain, and 32 where it has none.
/// `None` of any other block.
#[inline(always)]
pub(crate) fn gap_of(lanes: u8x32) -> Option<u32>
    ensures { IfSome result (HasOneEscape lanes) }
{
    if stray_marks(lanes) != 0 {
        return None;
    }
    let escapes = escape_marks(lanes);
    // a mark behind the block, so that no branch asks whether there is one in it
    let gap = (escapes | 1 << 32).trailing_zeros();
    if gap == 31 || escapes >> (gap + 1) != 0 {
        return None;
    }
    Some(gap)
}

/// The bytes of a block with an escape at a place, of which `next` is the block one place further.
#[inline(always)]
pub(crate) fn closed(gap: u8, lanes: u8x32, next: u8x32) -> u8x32
    ensures long { length result ≡ 32 }
    ensures each { (i : ℕ) → i < 32 → slice_index result i ≡ byte_at gap i (slice_index lanes i) (slice_index next i) }
{
    let places = u8x32::from_array(PLACES);
    let gap = u8x32::splat(gap);
    let characters = places.simd_lt(gap).select(lanes, next);
    // 64 for the escape, and 42 as everywhere
    let lower = places
        .simd_eq(gap)
        .select(u8x32::splat(106), u8x32::splat(42));
    characters - lower
}
