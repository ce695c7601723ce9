// The files of a fetch: made, cleared, and given their sizes.
use crate::fixtures::{Made, Making, holds, make, ranges_of};
use io_traits::Failed;
use std::alloc::Global;
use std::test::Fail;

// Two files, of which the first has nine digits. The calls of these numbers fail, of which this takes the first three.
fn digits(alloc: Global, failing: &[u64]) -> Result<Option<Made>, Fail> {
    match make(alloc, b"\"t\" yEnc (1/1)", b"no name", failing)? {
        Making::Whole(mut made) => {
            let _written = made.write(b"123456789");
            Ok(Some(made))
        }
        Making::Failing(_) => Ok(None),
    }
}

#[test]
fn files_are_made_under_their_names(rt: HostRuntime) -> Result<(), Fail> {
    let Making::Whole(mut made) = make(rt.alloc(), b"\"t\" yEnc (1/1)", b"no name", &[])? else {
        panic!(rt; "not made");
    };
    assert!(rt; made.holds(0, b"") && made.holds(1, b"") && !made.holds(2, b""));
    assert!(rt; made.is_named(0, "0001-t") && made.is_named(1, "0002-file"));
    assert!(rt; !made.is_named(0, "0002-file"));
    Ok(())
}

#[test]
fn a_file_that_isnt_made_ends_the_making(rt: HostRuntime) -> Result<(), Fail> {
    let Making::Failing(store) = make(rt.alloc(), b"\"a\"", b"\"b\"", &[1])? else {
        panic!(rt; "made");
    };
    assert!(rt; !holds(&store, 0, b"") && !holds(&store, 1, b""));
    let Making::Failing(store) = make(rt.alloc(), b"\"a\"", b"\"b\"", &[2])? else {
        panic!(rt; "made");
    };
    assert!(rt; holds(&store, 0, b"") && !holds(&store, 1, b""));
    Ok(())
}

#[test]
fn zeros_are_written_where_they_are_asked_for(rt: HostRuntime) -> Result<(), Fail> {
    let Some(mut made) = digits(rt.alloc(), &[])? else {
        panic!(rt; "not made");
    };
    assert!(rt; made.clear(2, 3) == Ok(()) && made.holds(0, b"12\0\0\06789"));
    assert!(rt; made.clear(8, 1) == Ok(()) && made.holds(0, b"12\0\0\0678\0"));
    Ok(())
}

#[test]
fn no_zeros_are_no_call(rt: HostRuntime) -> Result<(), Fail> {
    let Some(mut made) = digits(rt.alloc(), &[4])? else {
        panic!(rt; "not made");
    };
    assert!(rt; made.clear(4, 0) == Ok(()) && made.holds(0, b"123456789"));
    assert!(rt; made.clear(4, 1) == Err(Failed));
    Ok(())
}

#[test]
fn many_zeros_are_several_pieces(rt: HostRuntime) -> Result<(), Fail> {
    let Some(mut made) = digits(rt.alloc(), &[5])? else {
        panic!(rt; "not made");
    };
    assert!(rt; made.clear(1, 65_536) == Ok(()));
    let Some(mut made) = digits(rt.alloc(), &[5])? else {
        panic!(rt; "not made");
    };
    assert!(rt; made.clear(1, 65_537) == Err(Failed));
    let Some(mut made) = digits(rt.alloc(), &[])? else {
        panic!(rt; "not made");
    };
    assert!(rt; made.clear(1, 65_537) == Ok(()) && made.len() == 65_538);
    Ok(())
}

#[test]
fn files_get_the_size_of_their_parts(rt: HostRuntime) -> Result<(), Fail> {
    let Some(mut made) = digits(rt.alloc(), &[])? else {
        panic!(rt; "not made");
    };
    let ranges = ranges_of(rt.alloc())?;
    assert!(rt; made.set_lengths(&ranges) == Ok(()));
    assert!(rt; made.holds(0, b"12345") && made.holds(1, b""));
    Ok(())
}

#[test]
fn a_length_that_isnt_set_fails(rt: HostRuntime) -> Result<(), Fail> {
    let Some(mut made) = digits(rt.alloc(), &[5])? else {
        panic!(rt; "not made");
    };
    let ranges = ranges_of(rt.alloc())?;
    assert!(rt; made.set_lengths(&ranges) == Err(Failed));
    Ok(())
}
