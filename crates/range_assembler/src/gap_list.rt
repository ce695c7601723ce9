// The offsets of each file that no accepted range has, as ranges in order: the gaps.
ghost use Rattle.std.specs.Prelude.{◌≡◌, ◌<◌, ◌≤◌, ◌+◌, ◌^◌, ℕ, length, Some, slice_get};
ghost use Rattle.range_assembler.specs.Bare.{trimmed, next_place, carved, gap_upto, first_gaps};
ghost use Rattle.range_assembler.specs.Order.{IsAbsent};
ghost use Rattle.range_assembler.specs.declared.sequence.Range.{Range};
ghost use Rattle.limits.specs.declared.TheConstants.{MOST_FILES, MOST_FILE_BYTES, MOST_SEGMENTS};

use crate::order::{Order, put};
use crate::sequence::Range;

// The last of all offsets.
const LAST: u64 = u64::MAX;

/// Puts the gap of all offsets for each of so many files. The gaps are known by the numbers from `segments` on.
pub fn fill(gaps: &mut Order, segments: u32, files: u32)
    requires new { gaps.old.0 ≡ first_gaps segments 0 0 }
    requires few { segments ≤ MOST_SEGMENTS }
    requires files { files ≤ MOST_FILES }
    requires sides { gaps.old.1 ≡ segments + files }
    ensures ranges { gaps.new.0 ≡ first_gaps segments 0 files }
    ensures sides { gaps.new.1 ≡ gaps.old.1 }
{
    for file in 0..files {
        add_file_gap(gaps, segments, file, files);
    }
}

// The gap of all offsets of one more file.
fn add_file_gap(gaps: &mut Order, segments: u32, file: u32, files: u32)
    requires ranges { gaps.old.0 ≡ first_gaps segments 0 file }
    requires few { segments ≤ MOST_SEGMENTS }
    requires files { files ≤ MOST_FILES }
    requires file { file < files }
    requires sides { gaps.old.1 ≡ segments + files }
    ensures ranges { gaps.new.0 ≡ first_gaps segments 0 (file + 1) }
    ensures sides { gaps.new.1 ≡ gaps.old.1 }
{
    let range = Range {
        file,
        segment: segments + file,
        first: 1,
        last: LAST,
    };
    gaps.insert(file, range);
}

/// Lets the gap at a place end before an offset, or takes it out where nothing of it is left. Answers the place behind.
fn trim(gaps: &mut Order, place: u32, gap: Range, first: u64) -> u32
    requires there { slice_get gaps.old.0 place ≡ Some gap }
    requires first { 1 ≤ first }
    requires few { length gaps.old.0 < 2 ^ 32 }
    requires known { gap.segment < gaps.old.1 }
    ensures ranges { gaps.new.0 ≡ trimmed place gap first gaps.old.0 }
    ensures sides { gaps.new.1 ≡ gaps.old.1 }
    ensures next { result ≡ next_place place gap first }
{
    if gap.first < first {
        let left = Range {
            file: gap.file,
            segment: gap.segment,
            first: gap.first,
            last: first - 1,
        };
        gaps.set(place, left);
        return place + 1;
    }
    gaps.remove(place);
    place
}

/// Takes the offsets of a range out of the gap at a place, which has them all.
pub fn carve(gaps: &mut Order, place: u32, gap: Option<Range>, range: Range)
    requires there { gap ≡ slice_get gaps.old.0 place }
    requires first { 1 ≤ range.first }
    requires last { range.last ≤ MOST_FILE_BYTES }
    requires few { length gaps.old.0 + 1 < 2 ^ 32 }
    requires range { range.segment < gaps.old.1 }
    requires absent { IsAbsent range.segment gaps.old.0 }
    requires known { (k : ℕ) (gap : Range) → slice_get gaps.old.0 k ≡ Some gap → gap.segment < gaps.old.1 }
    ensures ranges { gaps.new.0 ≡ carved place gap range gaps.old.0 }
    ensures sides { gaps.new.1 ≡ gaps.old.1 }
{
    if range.first > range.last {
        return;
    }
    match gap {
        Some(gap) => {
            let next = trim(gaps, place, gap, range.first);
            let rest = Range {
                file: gap.file,
                segment: range.segment,
                first: range.last + 1,
                last: gap.last,
            };
            put(gaps, next, rest);
        }
        None => {}
    }
}

/// The part of the k-th gap from a place on that is up to the size, if it is of the file and begins there.
pub fn gap_at(gaps: &Order, place: u32, k: usize, file: u32, size: u64) -> Option<(u64, u64)>
    requires place { place ≤ length gaps.now.0 }
    requires few { length gaps.now.0 < 2 ^ 32 }
    ensures answer { result ≡ gap_upto file size (slice_get gaps.now.0 (place + k)) }
    ensures size { size ≤ 18446744073709551615 }
{
    let left = gaps.len() - place;
    if k >= left as usize {
        return None;
    }
    gap_upto(gaps.get(place + k as u32), file, size)
}

fn gap_upto(gap: Option<Range>, file: u32, size: u64) -> Option<(u64, u64)>
    ensures { result ≡ gap_upto file size gap }
{
    match gap {
        Some(gap) => {
            if gap.file == file && gap.first <= size {
                Some((gap.first, if gap.last <= size { gap.last } else { size }))
            } else {
                None
            }
        }
        None => None,
    }
}
