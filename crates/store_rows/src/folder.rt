// A store in the folder where the test runs.

use crate::calls::{comes_back, far_then_near, fills, goes_on, refuses};
use crate::disk::Disk;
use io_system::FolderStore;
use io_traits::Store;
use std::fs;
use std::fs::Permissions;
use std::io::ErrorKind;
use std::os::unix::fs::{MetadataExt, PermissionsExt, symlink};
use std::process::Abort;
use std::rt::Files;

// Asserts that a file has these bytes.
fn holds<R: Files + AllocGlobal + Abort>(rt: &R, name: &str, wanted: &[u8]) {
    let bytes = fs::read(rt, name).expect(rt, "a file");
    assert!(rt; bytes.as_slice() == wanted);
}

#[test]
fn a_folder_holds_what_was_written(rt: HostRuntime) {
    let store = FolderStore::new(rt.alloc(), &rt);
    let store = far_then_near(&rt, store, 3, "some file");
    holds(&rt, "some file", b"ne\0\0\0far");
    let store = goes_on(&rt, store, 3, "some file", 8);
    holds(&rt, "some file", b"ne\0\0\0far+");
    let again = goes_on(&rt, FolderStore::new(rt.alloc(), &rt), 9, "some file", 1);
    holds(&rt, "some file", b"n+\0\0\0far+");
    drop(again);
    let mut store = store;
    store.create(3, "some file").expect(&rt, "a file");
    holds(&rt, "some file", b"");
}

#[test]
fn names_links_and_folders_are_refused(rt: HostRuntime) {
    fs::write(&rt, "target", b"untouched").expect(&rt, "a file");
    symlink(&rt, "target", "link").expect(&rt, "a link");
    symlink(&rt, "nothing", "dangling").expect(&rt, "a link");
    fs::create_dir(&rt, "folder").expect(&rt, "a folder");
    let mut store = FolderStore::new(rt.alloc(), &rt);
    for name in [
        "", ".", "..", "folder/x", "/x", "nul\0", "link", "dangling", "folder",
    ] {
        store = refuses(&rt, store, name);
        assert!(rt; store.reason().is_some());
    }
    holds(&rt, "target", b"untouched");
    assert!(rt; fs::metadata(&rt, "nothing").is_err());
}

#[test]
fn two_thousand_files_take_few_that_are_open(rt: HostRuntime) {
    let mut store = FolderStore::new(rt.alloc(), &rt);
    for number in 0..2_000u32 {
        let name = format!(in rt.alloc(); "many-{number}").expect(&rt, "a name");
        store = far_then_near(&rt, store, number, name.as_str());
    }
    let mut open: usize = 0;
    for _entry in fs::read_dir(&rt, "/proc/self/fd").expect(&rt, "open files") {
        open = open.saturating_add(1);
    }
    assert!(rt; open < 64);
    let store = goes_on(&rt, store, 0, "many-0", 2);
    holds(&rt, "many-0", b"ne+\0\0far");
    drop(store);
}

#[test]
fn a_file_is_opened_again_and_not_cut(rt: HostRuntime) {
    let store = comes_back(&rt, FolderStore::new(rt.alloc(), &rt), "first", 100);
    holds(&rt, "first", b"firs");
    holds(&rt, "other-99", b"x");
    drop(store);
}

#[test]
fn a_short_write_goes_on_until_the_disk_is_full(rt: HostRuntime) {
    let disk = Disk {
        host: &rt,
        alloc: rt.alloc(),
        folder: ".",
        room: 10,
    };
    let store = fills(&rt, FolderStore::new(rt.alloc(), disk), "small");
    match store.reason() {
        Some(error) => assert!(rt; error.kind() == ErrorKind::StorageFull),
        None => assert!(rt; false),
    }
    holds(&rt, "small", b"abcdefghxy");
}

// The superuser may write to any folder but those of the system itself.
#[test]
fn a_folder_without_permission_takes_no_file(rt: HostRuntime) {
    fs::write(&rt, "own", b"").expect(&rt, "a file");
    let is_root = fs::metadata(&rt, "own").expect(&rt, "a file").uid() == 0;
    fs::create_dir(&rt, "shut").expect(&rt, "a folder");
    fs::set_permissions(&rt, "shut", Permissions::from_mode(0o555)).expect(&rt, "a mode");
    let shut = Disk {
        host: &rt,
        alloc: rt.alloc(),
        folder: "shut",
        room: 10,
    };
    let mut store = FolderStore::new(rt.alloc(), shut);
    assert!(rt; store.create(1, "file").is_ok() == is_root);
    match store.reason() {
        Some(error) => assert!(rt; !is_root && error.kind() == ErrorKind::PermissionDenied),
        None => assert!(rt; is_root),
    }
    let system = Disk {
        host: &rt,
        alloc: rt.alloc(),
        folder: "/proc",
        room: 10,
    };
    let store = refuses(&rt, FolderStore::new(rt.alloc(), system), "file");
    assert!(rt; store.reason().is_some());
}
