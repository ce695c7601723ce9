// A store in memory.

use crate::calls::{far_then_near, goes_on, stops_at};
use io_memory::{MOST_STORED_BYTES, MemStore};
use io_traits::Store;
use lists::List;

#[test]
fn a_store_in_memory_holds_what_was_written(rt: HostRuntime) {
    let store = MemStore::new(rt.alloc(), List::new(rt.alloc())).expect(&rt, "a store");
    let store = far_then_near(&rt, store, 3, "some");
    let mut store = goes_on(&rt, store, 3, "some", 8);
    assert!(rt; store.file(3) == Some(b"ne\0\0\0far+".as_slice()));
    assert!(rt; store.file(1).is_none());
    assert!(rt; store.keep(3, "other").is_err());
    let store = stops_at(&rt, store, 3, "some", MOST_STORED_BYTES);
    assert!(rt; store.file(3) == Some(b"".as_slice()));
}

#[test]
fn chosen_calls_fail_and_change_no_file(rt: HostRuntime) {
    let mut failing = List::new(rt.alloc());
    for number in [2u64, 4, 6, 8] {
        failing.push(number).expect(&rt, "a number");
    }
    let mut store = MemStore::new(rt.alloc(), failing).expect(&rt, "a store");
    store.create(1, "some").expect(&rt, "call 1");
    assert!(rt; store.keep(1, "some").is_err());
    store.write_at(1, 0, b"abc").expect(&rt, "call 3");
    assert!(rt; store.write_at(1, 1, b"xyz").is_err());
    store.set_len(1, 2).expect(&rt, "call 5");
    assert!(rt; store.set_len(1, 0).is_err());
    assert!(rt; store.file(1) == Some(b"ab".as_slice()));
    store.create(2, "more").expect(&rt, "call 7");
    assert!(rt; store.create(1, "some").is_err());
    assert!(rt; store.file(1).is_none());
    assert!(rt; store.file(2) == Some(b"".as_slice()));
}
