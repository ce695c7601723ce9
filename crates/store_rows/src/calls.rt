// Calls on any store, each on a file that is made or kept just before.
ghost use Rattle.std.specs.Prelude.{◌≡◌, ◌≢◌, ℕ};
ghost use Rattle.io_traits.specs.Store.{is_created};

use io_traits::Store;
use std::process::Abort;

/// Makes a file, and writes a piece at a far place and then one at its front.
pub(crate) fn far_then_near<S: Store + Drop, R: Abort>(
    rt: &R,
    mut store: S,
    file: u32,
    name: &str,
) -> S {
    store.create(file, name).expect(rt, "a file");
    store.write_at(file, 5, b"far").expect(rt, "a far write");
    store.write_at(file, 0, b"ne").expect(rt, "a near write");
    store
}

/// Keeps a file, and writes a byte at a place.
pub(crate) fn goes_on<S: Store + Drop, R: Abort>(
    rt: &R,
    mut store: S,
    file: u32,
    name: &str,
    place: u64,
) -> S {
    store.keep(file, name).expect(rt, "a file that is there");
    store.write_at(file, place, b"+").expect(rt, "a write");
    store
}

/// Asserts that a file can't be made, and can't be kept.
pub(crate) fn refuses<S: Store + Drop, R: Abort>(rt: &R, mut store: S, name: &str) -> S {
    assert!(rt; store.create(1, name).is_err());
    assert!(rt; store.keep(1, name).is_err());
    store
}

/// Asserts that a file, made anew, can't become longer than a limit. Nothing is written past it, and a piece of no byte may stand there.
pub(crate) fn stops_at<S: Store + Drop, R: Abort>(
    rt: &R,
    mut store: S,
    file: u32,
    name: &str,
    limit: u64,
) -> S {
    store.create(file, name).expect(rt, "a file");
    assert!(rt; store.set_len(file, limit.saturating_add(1)).is_err());
    assert!(rt; store.write_at(file, limit, b"x").is_err());
    assert!(rt; store.write_at(file, limit, b"").is_ok());
    store
}

/// Makes a file, writes as much as a disk has room for, and fails to write more.
pub(crate) fn fills<S: Store + Drop, R: Abort>(rt: &R, mut store: S, name: &str) -> S {
    store.create(1, name).expect(rt, "a file");
    store.write_at(1, 0, b"abcdefgh").expect(rt, "room");
    assert!(rt; store.write_at(1, 8, b"xyz").is_err());
    store
}

/// Makes a file, then others up to a number, and goes on with the first one.
pub(crate) fn comes_back<S: Store + Drop, R: Abort + AllocGlobal>(
    rt: &R,
    mut store: S,
    name: &str,
    others: u32,
) -> S {
    store.create(0, name).expect(rt, "a file");
    store.write_at(0, 0, b"fi").expect(rt, "a write");
    for number in 1..others {
        makes(rt, &mut store, number);
    }
    store.write_at(0, 2, b"rst").expect(rt, "a later write");
    store.set_len(0, 4).expect(rt, "a length");
    store
}

// Makes a file that has its own name, of one byte.
fn makes<S: Store, R: Abort + AllocGlobal>(rt: &R, store: &mut S, number: u32)
    ensures { (k : ℕ) → k ≢ number → is_created (S.created store.new) k ≡ is_created (S.created store.old) k }
{
    let name = format!(in rt.alloc(); "other-{number}").expect(rt, "a name");
    store.create(number, name.as_str()).expect(rt, "a file");
    store.write_at(number, 0, b"x").expect(rt, "a write");
}
