// The landing of a run: whole blocks first, then what is left.
ghost use Rattle.std.specs.Prelude.{◌≡◌, ◌+◌, ◌<◌, ◌≤◌, length, slice_index, true};
ghost use Rattle.landing_kernel.specs.Characters.{is_critical};
ghost use Rattle.gap_kernel.specs.Landing.{LandsSpellings};

use crate::block::{Landed, land_block, land_plain};
use crate::lanes::BLOCK;

/// Lands characters of a data line from place `from` on, plain ones and whole escapes, up to a critical one (NUL, LF, CR or `=`),
/// and no further than place `end`: the bytes that they spell (yEnc draft 1.3, "Encoding Principle") are put to the places
/// from `to` on. It may stop at an escape, whole or not.
///
/// What stands before place `to`, and behind the characters, stays as it is. What stands between may be anything.
pub fn land_spellings(buf: &mut [u8], from: usize, to: usize, end: usize) -> Landed
    requires ordered { (to ≤ from) × (from ≤ end) × (end ≤ length buf.old) }
    ensures within { (result.landed ≤ result.used) × (from + result.used ≤ end) }
    ensures landed { LandsSpellings buf.old buf.new from to result.used result.landed }
    ensures stops { from + result.used < end → is_critical (slice_index buf.old (from + result.used)) ≡ true }
{
    let mut used = 0;
    let mut landed = 0;
    while end - from - used > BLOCK {
        let block = land_block(buf, from + used, to + landed);
        used += block.used;
        landed += block.landed;
        if block.used < BLOCK {
            return Landed { used, landed };
        }
    }
    let rest = land_plain(buf, from + used, to + landed, end);
    Landed {
        used: used + rest.used,
        landed: landed + rest.landed,
    }
}
