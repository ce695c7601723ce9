// Calls that are made where their conditions hold.
ghost use Rattle.std.specs.Prelude.{◌≤◌, length, sum};
ghost use Rattle.limits.specs.declared.TheConstants.{MOST_FILES, MOST_SEGMENTS};

use range_assembler::{Assembler, Clash, Hold, OtherSize};
use std::process::Abort;

/// Files of so many parts, of which none has a range.
pub(crate) fn assembler_of<R: Abort + AllocGlobal>(rt: &R, parts: &[u32]) -> Assembler
    requires files { length parts.now ≤ MOST_FILES }
    requires segments { sum parts.now ≤ MOST_SEGMENTS }
{
    Assembler::new(rt.alloc(), parts).expect(rt, "an assembler")
}

/// What `claim` answers, or nothing where the segment has a range or the range is none.
pub(crate) fn claim(
    assembler: &mut Assembler,
    segment: u32,
    first: u64,
    last: u64,
) -> Option<Result<(), Clash>> {
    if first < 1 || last > 1 << 40 || first > last + 1 {
        return None;
    }
    match assembler.entry(segment) {
        Some(entry) => match entry.hold {
            Hold::Free => Some(assembler.claim(segment, first, last)),
            _ => None,
        },
        None => None,
    }
}

/// What `accept` answers, or nothing where the segment has no held range that ends within the size.
pub(crate) fn accept(
    assembler: &mut Assembler,
    segment: u32,
    size: u64,
) -> Option<Result<(), OtherSize>> {
    match assembler.entry(segment) {
        Some(entry) => match entry.hold {
            Hold::Held => {
                if entry.last <= size {
                    Some(assembler.accept(segment, size))
                } else {
                    None
                }
            }
            _ => None,
        },
        None => None,
    }
}

/// Whether the segment had a held range, which is given up.
pub(crate) fn release(assembler: &mut Assembler, segment: u32) -> bool {
    match assembler.entry(segment) {
        Some(entry) => match entry.hold {
            Hold::Held => {
                assembler.release(segment);
                true
            }
            _ => false,
        },
        None => false,
    }
}
