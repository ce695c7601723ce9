// Files that are checked.
ghost use Rattle.std.specs.Prelude.{◌<◌};

use io_traits::Input;
use lists::{Bytes, List, Memory, bytes_of};
use md5::{Digest, Md5};
use par2_check::{CheckError, Checked, ParFile, check_file};
use row_fixtures::{PartialInput, files_of};
use std::alloc::Global;
use std::process::Abort;

// A file of these bytes, with the MD5 of each slice.
fn file_of(alloc: Global, content: &[u8], slice: usize) -> Result<ParFile, Memory>
    requires { 0 < slice }
{
    let mut slices = List::new(alloc);
    for bytes in content.chunks(slice) {
        slices.push(digest_of(alloc, bytes, slice)?)?;
    }
    Ok(ParFile {
        name: bytes_of(alloc, b"d")?,
        size: content.len() as u64,
        md5: Md5::digest(content),
        slices,
    })
}

// The MD5 of the bytes of a slice, with zeros behind them.
fn digest_of(alloc: Global, bytes: &[u8], slice: usize) -> Result<[u8; 16], Memory> {
    let mut padded = bytes_of(alloc, bytes)?;
    for _ in bytes.len()..slice {
        padded.push(0)?;
    }
    Ok(Md5::digest(padded.as_slice()))
}

// What is found of the contents of an input.
fn check<R: Abort + AllocGlobal, I: Input>(
    rt: &R,
    slice: u64,
    file: &ParFile,
    input: &mut I,
) -> Result<Checked, CheckError> {
    let len = input.open("d").expect(rt, "a file");
    if !file.fits(slice) {
        rt.panic("a file with an MD5 for each slice");
    }
    check_file(rt.alloc(), slice, file, len, input)
}

// Asserts which slices of these bytes are damaged, and whether they are whole.
fn finds<R: Abort + AllocGlobal>(
    rt: &R,
    slice: u64,
    file: &ParFile,
    content: &[u8],
    damaged: &[(u64, u64)],
    whole: bool,
) {
    let mut input = files_of(rt.alloc(), &[("d", content)], &[]).expect(rt, "an input");
    match check(rt, slice, file, &mut input) {
        Ok(checked) => {
            assert!(rt; checked.damaged.as_slice() == damaged);
            assert!(rt; checked.whole == whole);
        }
        Err(_) => rt.panic("the input is read"),
    }
}

#[test]
fn slices_of_four_bytes_are_judged(rt: HostRuntime) {
    let file = file_of(rt.alloc(), b"123456789", 4).expect(&rt, "a file");
    finds(&rt, 4, &file, b"123456789", &[], true);
    finds(&rt, 4, &file, b"12345x789", &[(2, 2)], false);
    finds(&rt, 4, &file, b"x2345678x", &[(1, 1), (3, 3)], false);
    finds(&rt, 4, &file, b"x2345x78x", &[(1, 3)], false);
}

#[test]
fn slices_that_are_cut_are_damaged(rt: HostRuntime) {
    let file = file_of(rt.alloc(), b"123456789", 4).expect(&rt, "a file");
    finds(&rt, 4, &file, b"1234567", &[(2, 3)], false);
    finds(&rt, 4, &file, b"12345678", &[(3, 3)], false);
    finds(&rt, 4, &file, b"x234", &[(1, 3)], false);
    finds(&rt, 4, &file, b"", &[(1, 3)], false);
}

#[test]
fn a_longer_file_has_sound_slices_and_is_not_whole(rt: HostRuntime) {
    let file = file_of(rt.alloc(), b"123456789", 4).expect(&rt, "a file");
    finds(&rt, 4, &file, b"123456789\0", &[], false);
}

#[test]
fn an_empty_file_is_whole(rt: HostRuntime) {
    let file = file_of(rt.alloc(), b"", 4).expect(&rt, "a file");
    finds(&rt, 4, &file, b"", &[], true);
    finds(&rt, 4, &file, b"1", &[], false);
}

// So many bytes that differ from their neighbours.
fn counted(alloc: Global, count: u32) -> Result<Bytes, Memory> {
    let mut bytes = Bytes::new(alloc);
    for i in 0..count {
        bytes.push((i % 251) as u8)?;
    }
    Ok(bytes)
}

#[test]
fn slices_and_buffers_need_not_meet(rt: HostRuntime) {
    let content = counted(rt.alloc(), 200_000).expect(&rt, "contents");
    let file = file_of(rt.alloc(), content.as_slice(), 65_540).expect(&rt, "a file");
    finds(&rt, 65_540, &file, content.as_slice(), &[], true);
    let small = file_of(rt.alloc(), content.as_slice(), 12).expect(&rt, "a file");
    finds(&rt, 12, &small, content.as_slice(), &[], true);
}

#[test]
fn a_failing_read_is_told(rt: HostRuntime) {
    let file = file_of(rt.alloc(), b"123456789", 4).expect(&rt, "a file");
    let mut input = files_of(rt.alloc(), &[("d", b"123456789")], &[2]).expect(&rt, "an input");
    match check(&rt, 4, &file, &mut input) {
        Ok(_) => rt.panic("a fault"),
        Err(error) => assert!(rt; error == CheckError::Input),
    }
}

#[test]
fn a_read_that_gives_nothing_is_told(rt: HostRuntime) {
    let file = file_of(rt.alloc(), b"123456789", 4).expect(&rt, "a file");
    let mut input = PartialInput::shrunk(9, 5);
    match check(&rt, 4, &file, &mut input) {
        Ok(_) => rt.panic("a short read"),
        Err(error) => assert!(rt; error == CheckError::Short(5)),
    }
}
