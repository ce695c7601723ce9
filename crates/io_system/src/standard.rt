// Standard output and standard error. What was written to them is not told.
ghost use Rattle.std.specs.Prelude.{◌≡◌, ◌≤◌, ◌<◌, None, IfOk, length};

use io_traits::{Failed, Sink, raised};
use libc::net::{POLLOUT, poll};
use libc::types::pollfd;
use std::io;
use std::io::ErrorKind;
use std::os::fd::{AsRawFd, RawFd};

/// A stream that a runtime prints to. One that doesn't wait for its reader by itself, as a pipe in that mode, is waited for.
#[derive(Drop)]
pub struct StreamSink<R: Print + AsRawFd + Drop> {
    stream: R,
    faults: u64,
    reason: Option<io::Error>,
}

/// Standard output.
pub type OutSink<R> = StreamSink<R>;

/// Standard error.
pub type ErrSink<R> = StreamSink<R>;

impl<R: Print + AsRawFd + Drop> StreamSink<R> {
    /// Writes to the stream. No write has failed yet.
    pub fn new(stream: R) -> Self
        ensures { ⟦<StreamSink<R> as Sink>⟧.faults result ≡ 0 }
    {
        StreamSink {
            stream,
            faults: 0,
            reason: None,
        }
    }

    /// Why the last write that failed did so, in the system's words, for the one who reads the message.
    pub fn reason(&self) -> Option<&io::Error> {
        self.reason.as_ref()
    }
}

impl<R: Print + AsRawFd + Drop> Sink for StreamSink<R> {
    ghost faults = { λ s. s.faults };

    ghost told = { λ s. None };

    fn write(&mut self, bytes: &[u8]) -> Result<usize, Failed> {
        match write_some(&self.stream, bytes) {
            Ok(n) => Ok(n),
            Err(error) => {
                self.reason = Some(error);
                self.faults = raised(self.faults);
                Err(Failed)
            }
        }
    }
}

// Writes a front of the bytes, again where a signal came in between or the reader has to be waited for, which no stream does without
// end. A write that takes none of them has failed.
fn write_some<R: Print + AsRawFd>(stream: &R, bytes: &[u8]) -> io::Result<usize>
    ensures bound { IfOk result (λ n. n ≤ length bytes.now) }
    ensures some { IfOk result (λ n. 0 < length bytes.now → 0 < n) }
{
    for _ in 0..u64::MAX {
        match stream.write_some(bytes) {
            Ok(n) if n > 0 || bytes.is_empty() => return Ok(n),
            Ok(_) => return Err(io::Error::from(ErrorKind::WriteZero)),
            Err(error) if error.kind() == ErrorKind::Interrupted => {}
            Err(error) if error.kind() == ErrorKind::WouldBlock => wait_for_reader(
                stream.as_raw_fd(),
            ),
            Err(error) => return Err(error),
        }
    }
    Err(io::Error::from(ErrorKind::Interrupted))
}

// Waits until a stream takes bytes, or fails.
fn wait_for_reader(stream: RawFd) {
    let mut asked = [pollfd {
        fd: stream,
        events: POLLOUT,
        revents: 0,
    }];
    let _told = poll(&mut asked, -1);
}
