// The numbers of the standard streams, which are theirs from the program's first line to its last.

use libc::net::{POLLNVAL, poll};
use libc::types::pollfd;
use std::fs::File;
use std::io;

// What stands in for a closed stream. A read of it ends at once, and where it is opened for reading alone, a write to it fails.
const NULL_DEVICE: &str = "/dev/null";

/// The null device under the number of each standard stream that was closed when the program began. While it is held, the system gives
/// that number to no file and to no link, so that what is written to the stream is lost with a fault and goes nowhere else.
pub(crate) fn hold_closed_streams(rt: &HostRuntime) -> io::Result<[Option<File>; 3]> {
    Ok([
        hold_if_closed(rt, 0)?,
        hold_if_closed(rt, 1)?,
        hold_if_closed(rt, 2)?,
    ])
}

// Holds a number, where it is closed. All smaller ones are open, so the system gives this one to the next file.
fn hold_if_closed(rt: &HostRuntime, number: i32) -> io::Result<Option<File>> {
    if is_closed(number) {
        Ok(Some(File::open(rt, NULL_DEVICE)?))
    } else {
        Ok(None)
    }
}

// Whether no file or socket has a number.
fn is_closed(number: i32) -> bool {
    let mut asked = [pollfd {
        fd: number,
        events: 0,
        revents: 0,
    }];
    let _told = poll(&mut asked, 0);
    asked[0].revents & POLLNVAL != 0
}
