// Calls at random, and a plain program that has a mark for each offset.
use crate::fixtures::{accept, assembler_of, claim, release};
use range_assembler::{Assembler, Clash, OtherSize};
use std::process::Abort;

const OFFSETS: usize = 64;

const SEGMENTS: usize = 24;

// A file's marks: at each offset the segment that holds it, and whether it is accepted.
#[derive(Clone, Copy, Drop)]
struct Marks {
    holder: [u32; 66],
    accepted: [bool; 66],
    size: Option<u64>,
}

const NOBODY: u32 = 1000;

fn next(seed: u64) -> u64 {
    let seed = seed ^ (seed << 13);
    let seed = seed ^ (seed >> 7);
    seed ^ (seed << 17)
}

// The range of a segment that has the least marked offset from `first` to `last`.
fn clash_of(marks: &Marks, first: u64, last: u64) -> Option<u32> {
    for offset in 1..OFFSETS + 1 {
        let at = offset as u64;
        if first <= at && at <= last && marks.holder[offset] != NOBODY {
            return Some(marks.holder[offset]);
        }
    }
    None
}

fn mark(marks: &mut Marks, segment: u32, first: u64, last: u64) {
    for offset in 1..OFFSETS + 1 {
        let at = offset as u64;
        if first <= at && at <= last {
            marks.holder[offset] = segment;
        }
    }
}

fn unmark(marks: &mut Marks, segment: u32) {
    for offset in 1..OFFSETS + 1 {
        if marks.holder[offset] == segment {
            marks.holder[offset] = NOBODY;
        }
    }
}

fn mark_accepted(marks: &mut Marks, segment: u32) {
    for offset in 1..OFFSETS + 1 {
        if marks.holder[offset] == segment {
            marks.accepted[offset] = true;
        }
    }
}

// The k-th run of offsets up to the size that aren't accepted.
fn missing_of(marks: &Marks, k: usize) -> Option<(u64, u64)> {
    let size = marks.size?;
    let mut left = k;
    let mut begin: Option<u64> = None;
    for offset in 1..OFFSETS + 2 {
        let at = offset as u64;
        let bare = at <= size && !marks.accepted[offset];
        match begin {
            Some(first) => {
                if !bare {
                    if left == 0 {
                        return Some((first, at - 1));
                    }
                    left -= 1;
                    begin = None;
                }
            }
            None => {
                if bare {
                    begin = Some(at);
                }
            }
        }
    }
    None
}

// The segment with the k-th run of accepted offsets.
fn accepted_of(marks: &Marks, k: usize) -> Option<u32> {
    let mut left = k;
    for offset in 1..OFFSETS + 1 {
        if marks.accepted[offset] && marks.holder[offset] != marks.holder[offset - 1] {
            if left == 0 {
                return Some(marks.holder[offset]);
            }
            left -= 1;
        }
    }
    None
}

fn other_of(answer: Option<Result<(), Clash>>) -> Option<u32> {
    match answer {
        Some(Err(clash)) => Some(clash.other),
        _ => None,
    }
}

// One call, and whether its answer is that of the marks.
fn step(assembler: &mut Assembler, marks: &mut Marks, seed: u64) -> bool {
    let segment = ((seed >> 8) % SEGMENTS as u64) as u32;
    let first = 1 + (seed >> 20) % 64;
    let last = first + (seed >> 30) % 6 - 1;
    let last = if last > 64 { 64 } else { last };
    match seed % 8 {
        0 | 1 | 2 | 3 => {
            let clash = clash_of(marks, first, last);
            match claim(assembler, segment, first, last) {
                Some(Ok(())) => {
                    mark(marks, segment, first, last);
                    clash.is_none()
                }
                Some(Err(found)) => Some(found.other) == clash,
                None => true,
            }
        }
        4 => {
            if release(assembler, segment) {
                unmark(marks, segment);
            }
            true
        }
        _ => step_accept(assembler, marks, segment, 62 + (seed >> 40) % 3),
    }
}

fn step_accept(assembler: &mut Assembler, marks: &mut Marks, segment: u32, size: u64) -> bool {
    match accept(assembler, segment, size) {
        Some(Ok(())) => {
            let fits = marks.size.is_none() || marks.size == Some(size);
            marks.size = Some(size);
            mark_accepted(marks, segment);
            fits
        }
        Some(Err(OtherSize { kept })) => marks.size == Some(kept) && kept != size,
        None => true,
    }
}

// Whether what is shown of the file is what the marks have.
fn shows(assembler: &Assembler, marks: &Marks) -> bool {
    let complete = marks.size.is_some() && missing_of(marks, 0).is_none();
    let mut good = assembler.size(0) == marks.size && assembler.complete(0) == complete;
    for k in 0..40usize {
        good = good && assembler.missing(0, k) == missing_of(marks, k);
    }
    good
}

// An assembler of one file, and its marks.
#[derive(Drop)]
struct Pair {
    assembler: Assembler,
    marks: Marks,
}

// Asserts that a call agrees with the marks, and what is shown behind it.
fn agrees<R: Abort>(rt: &R, mut pair: Pair, seed: u64) -> Pair {
    assert!(rt;
        step(&mut pair.assembler, &mut pair.marks, seed),
        "at seed {seed}"
    );
    assert!(rt; shows(&pair.assembler, &pair.marks), "behind seed {seed}");
    pair
}

// Asserts that the accepted parts are those of the marks.
fn ends<R: Abort>(rt: &R, pair: Pair) {
    for k in 0..SEGMENTS {
        assert_eq!(rt; pair.assembler.accepted(0, k), accepted_of(&pair.marks, k));
    }
}

// Asserts that 60 calls agree with marks, and answers the last one's seed.
fn round<R: Abort + AllocGlobal>(rt: &R, before: u64) -> u64 {
    let mut pair = Pair {
        assembler: assembler_of(rt, &[SEGMENTS as u32]),
        marks: Marks {
            holder: [NOBODY; 66],
            accepted: [false; 66],
            size: None,
        },
    };
    let mut seed = before;
    for _ in 0..60u32 {
        seed = next(seed);
        pair = agrees(rt, pair, seed);
    }
    ends(rt, pair);
    seed
}

#[test]
fn calls_at_random_agree_with_marks(rt: HostRuntime) {
    let mut seed: u64 = 88172645463325252;
    for _ in 0..500u32 {
        seed = round(&rt, seed);
    }
}
