// The sets of texts.
use crate::pieces::Piece::{
    Around, ChangedMain, Desc, EmptyDesc, EmptySlices, FewerSlices, Header, LaterDesc, LaterMain,
    LongMain, Main, MoreSlices, OddMain, OtherDesc, ShortMain, Slices, Stray,
};
use crate::pieces::{Piece, text_of};
use par2_check::{ParError, ParSet, read_par};
use std::process::Abort;

// The set of a text of these pieces.
fn set_of<R: Abort + AllocGlobal>(rt: &R, pieces: &[Piece]) -> ParSet {
    let text = text_of(rt.alloc(), pieces).expect(rt, "a text");
    match read_par(rt.alloc(), text.as_slice()) {
        Ok(set) => set,
        Err(_) => rt.panic("a set"),
    }
}

// Asserts that no Main counts in a text of these pieces.
fn has_no_main<R: Abort + AllocGlobal>(rt: &R, pieces: &[Piece]) {
    let text = text_of(rt.alloc(), pieces).expect(rt, "a text");
    match read_par(rt.alloc(), text.as_slice()) {
        Ok(_) => rt.panic("no set"),
        Err(error) => assert!(rt; error == ParError::NoMain),
    }
}

// Asserts which file stands at a place of a set. Its name is `d`.
fn has_file<R: Abort>(rt: &R, set: &ParSet, at: usize, size: u64, slices: usize) {
    match set.files.as_slice().get(at) {
        Some(file) => {
            assert!(rt; file.name.as_slice() == b"d".as_slice());
            assert!(rt; file.size == size && file.slices.len() == slices);
        }
        None => rt.panic("a file"),
    }
}

// Asserts that a text of these pieces has the set of the file `d` alone.
fn has_d<R: Abort + AllocGlobal>(rt: &R, pieces: &[Piece]) {
    let set = set_of(rt, pieces);
    assert!(rt; set.slice == 4 && set.files.len() == 1);
    has_file(rt, &set, 0, 9, 3);
}

#[test]
fn reads_the_set_of_a_file(rt: HostRuntime) {
    has_d(&rt, &[Main, Desc, Slices]);
    has_d(&rt, &[Slices, Desc, Main]);
}

#[test]
fn stray_bytes_before_each_packet_change_nothing(rt: HostRuntime) {
    has_d(&rt, &[Stray, Main, Stray, Desc, Stray, Slices]);
}

#[test]
fn a_main_with_another_digest_is_none(rt: HostRuntime) {
    has_no_main(&rt, &[ChangedMain, Desc, Slices]);
    has_no_main(&rt, &[]);
}

#[test]
fn the_first_main_that_counts_gives_the_set(rt: HostRuntime) {
    has_d(&rt, &[Main, LaterMain, Desc, Slices]);
    has_d(&rt, &[OddMain, ShortMain, Main, Desc, Slices]);
}

#[test]
fn packets_of_other_sets_are_ignored(rt: HostRuntime) {
    has_d(&rt, &[OtherDesc, Main, Desc, Slices]);
}

#[test]
fn the_first_of_two_descriptions_is_taken(rt: HostRuntime) {
    has_d(&rt, &[Main, Desc, LaterDesc, Slices]);
}

#[test]
fn slices_of_another_number_are_passed(rt: HostRuntime) {
    has_d(&rt, &[Main, MoreSlices, FewerSlices, Desc, Slices]);
    let set = set_of(&rt, &[Main, MoreSlices, Desc]);
    assert!(rt; set.files.is_empty());
}

#[test]
fn a_packet_inside_another_is_not_taken(rt: HostRuntime) {
    has_no_main(&rt, &[Around]);
    has_d(&rt, &[Around, Main, Desc, Slices]);
}

#[test]
fn a_length_that_does_not_fit_is_stray(rt: HostRuntime) {
    for len in [u64::MAX, 400, 64, 32] {
        has_d(&rt, &[Header(len), Main, Desc, Slices, Header(len)]);
    }
}

#[test]
fn ids_are_read_once_and_beyond_the_number(rt: HostRuntime) {
    let set = set_of(&rt, &[LongMain, Desc, Slices, EmptyDesc, EmptySlices]);
    assert!(rt; set.files.len() == 2);
    // Two files of one name, of which the first is empty.
    has_file(&rt, &set, 0, 0, 0);
    has_file(&rt, &set, 1, 9, 3);
}
