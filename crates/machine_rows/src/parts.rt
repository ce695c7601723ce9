// Files whose parts are few, or come from the last to the first.
use crate::fixtures::{accept, assembler_of, claim, release};
use range_assembler::{Assembler, Clash, OtherSize};
use std::process::Abort;

// A call, with what it was handed and what it has to answer. Files, segments and places are counted from 0.
#[derive(Clone, Copy)]
enum Call {
    Claim(u32, u64, u64),
    Clash(u32, u64, u64, Clash),
    Accept(u32, u64),
    OtherSize(u32, u64, u64),
    Release(u32, bool),
    Complete(u32, bool),
    Missing(u32, usize, Option<(u64, u64)>),
    Accepted(u32, usize, Option<u32>),
    Size(u32, Option<u64>),
}

// Whether a call is answered so.
fn answers(assembler: &mut Assembler, call: Call) -> bool {
    match call {
        Call::Claim(segment, first, last) => {
            claim(assembler, segment, first, last) == Some(Ok(()))
        }
        Call::Clash(segment, first, last, clash) => {
            claim(assembler, segment, first, last) == Some(Err(clash))
        }
        Call::Accept(segment, size) => accept(assembler, segment, size) == Some(Ok(())),
        Call::OtherSize(segment, size, kept) => {
            accept(assembler, segment, size) == Some(Err(OtherSize { kept }))
        }
        Call::Release(segment, wanted) => release(assembler, segment) == wanted,
        Call::Complete(file, wanted) => assembler.complete(file) == wanted,
        Call::Missing(file, k, wanted) => assembler.missing(file, k) == wanted,
        Call::Accepted(file, k, wanted) => assembler.accepted(file, k) == wanted,
        Call::Size(file, wanted) => assembler.size(file) == wanted,
    }
}

// Asserts what calls answer, one behind the other.
fn follows<R: Abort>(rt: &R, mut assembler: Assembler, calls: &[Call]) -> Assembler {
    let mut number: u32 = 0;
    for call in calls {
        assert!(rt; answers(&mut assembler, *call), "call {number}, from 0");
        number = number.saturating_add(1);
    }
    assembler
}

// Asserts what the `k`th part of a thousand answers, from the file's end.
fn takes_part<R: Abort>(rt: &R, assembler: Assembler, k: u32) -> Assembler {
    assert!(rt; 1 <= k && k <= 1000);
    let left = 1000 - k;
    let before = left as u64 * 10;
    let gap = if k < 1000 { Some((1, before)) } else { None };
    let calls = [
        Call::Complete(0, false),
        Call::Claim(left, before + 1, before + 10),
        Call::Accept(left, 10000),
        Call::Missing(0, 0, gap),
        Call::Missing(0, 1, None),
    ];
    follows(rt, assembler, &calls)
}

#[test]
fn parts_come_from_the_last_to_the_first(rt: HostRuntime) {
    let mut assembler = assembler_of(&rt, &[1000]);
    for k in 1..1001u32 {
        assembler = takes_part(&rt, assembler, k);
    }
    let calls = [
        Call::Complete(0, true),
        Call::Missing(0, 0, None),
        Call::Size(0, Some(10000)),
    ];
    follows(&rt, assembler, &calls);
}

#[test]
fn a_range_that_shares_offsets_is_a_clash(rt: HostRuntime) {
    let clash = Clash {
        other: 0,
        first: 1,
        last: 9,
    };
    let calls = [
        Call::Claim(0, 1, 9),
        Call::Accept(0, 18),
        Call::Clash(1, 5, 13, clash),
        Call::Clash(1, 9, 18, clash),
        Call::Missing(0, 0, Some((10, 18))),
        Call::Missing(0, 1, None),
        Call::Claim(1, 10, 18),
        Call::Missing(0, 0, Some((10, 18))),
        Call::Accept(1, 18),
        Call::Complete(0, true),
    ];
    follows(&rt, assembler_of(&rt, &[2]), &calls);
}

#[test]
fn the_clash_with_the_least_offset_is_named(rt: HostRuntime) {
    let clash = Clash {
        other: 2,
        first: 11,
        last: 20,
    };
    let calls = [
        Call::Claim(0, 1, 100),
        Call::Claim(1, 31, 40),
        Call::Claim(2, 11, 20),
        Call::Claim(3, 21, 30),
        Call::Clash(4, 20, 50, clash),
        Call::Release(2, true),
        Call::Claim(4, 11, 20),
    ];
    follows(&rt, assembler_of(&rt, &[1, 4]), &calls);
}

#[test]
fn empty_ranges_clash_with_nothing(rt: HostRuntime) {
    let calls = [
        Call::Claim(0, 1, 9),
        Call::Accept(0, 9),
        Call::Claim(1, 1, 0),
        Call::Accept(1, 9),
        Call::Claim(2, 5, 4),
        Call::Accept(2, 9),
        Call::Claim(3, 10, 9),
        Call::Accept(3, 9),
        Call::Complete(0, true),
    ];
    follows(&rt, assembler_of(&rt, &[4]), &calls);
}

#[test]
fn a_file_of_nothing_is_complete(rt: HostRuntime) {
    let calls = [
        Call::Size(0, None),
        Call::Complete(0, false),
        Call::Missing(0, 0, None),
        Call::Claim(0, 1, 0),
        Call::Complete(0, false),
        Call::Accept(0, 0),
        Call::Complete(0, true),
        Call::Complete(1, false),
    ];
    follows(&rt, assembler_of(&rt, &[1, 1]), &calls);
}

#[test]
fn another_size_leaves_the_range_held(rt: HostRuntime) {
    let calls = [
        Call::Claim(0, 1, 9),
        Call::Accept(0, 18),
        Call::Claim(1, 10, 18),
        Call::OtherSize(1, 19, 18),
        Call::Accept(1, 18),
        Call::Release(1, false),
        Call::Complete(0, true),
    ];
    follows(&rt, assembler_of(&rt, &[2]), &calls);
}

#[test]
fn accepted_parts_are_told_in_order(rt: HostRuntime) {
    let calls = [
        Call::Claim(0, 1, 9),
        Call::Claim(1, 20, 29),
        Call::Claim(2, 5, 4),
        Call::Claim(3, 10, 19),
        Call::Claim(4, 1, 9),
        Call::Accepted(1, 0, None),
        Call::Accept(0, 29),
        Call::Accept(1, 29),
        Call::Accept(2, 29),
        Call::Accept(4, 29),
        Call::Accepted(1, 0, Some(4)),
        Call::Accepted(1, 1, Some(1)),
        Call::Accepted(1, 2, None),
        Call::Accept(3, 29),
        Call::Accepted(1, 1, Some(3)),
        Call::Accepted(1, 2, Some(1)),
        Call::Accepted(0, 0, Some(0)),
        Call::Accepted(2, 0, None),
        Call::Accepted(7, 0, None),
    ];
    follows(&rt, assembler_of(&rt, &[1, 4, 1]), &calls);
}
