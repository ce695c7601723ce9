// Standard error, and the line that was said last.

use io_system::ErrSink;
use io_traits::{Failed, Sink};
use run_ends::LineBuffer;
use std::os::fd::AsRawFd;

/// Standard error. The line that was said last is kept, to be explained.
#[derive(Drop)]
pub(crate) struct LastLine<R: Print + AsRawFd + Drop> {
    sink: ErrSink<R>,
    kept: KeptLine,
    has_failed: bool,
}

// A line with its end, as far as it came and has room. The line of each end has.
#[derive(Clone, Copy)]
struct KeptLine {
    bytes: LineBuffer,
    len: usize,
    // Whether the next byte begins another line.
    is_ended: bool,
}

impl<R: Print + AsRawFd + Drop> LastLine<R> {
    /// Writes to standard error. Nothing was said yet.
    pub(crate) fn new(sink: ErrSink<R>) -> Self {
        LastLine {
            sink,
            kept: KeptLine {
                bytes: [0; 160],
                len: 0,
                is_ended: true,
            },
            has_failed: false,
        }
    }

    /// The line that was said last, with its end, or `None` where a write failed.
    pub(crate) fn line(&self) -> Option<&[u8]> {
        if self.has_failed {
            return None;
        }
        self.kept.bytes.get(..self.kept.len)
    }
}

impl KeptLine {
    fn keep(&mut self, bytes: &[u8]) {
        for byte in bytes {
            self.keep_byte(*byte);
        }
    }

    // Keeps a byte that was said, unless the line has too many.
    fn keep_byte(&mut self, byte: u8) {
        if self.is_ended {
            self.len = 0;
            self.is_ended = false;
        }
        if byte == b'\n' {
            self.is_ended = true;
        }
        if self.len < self.bytes.len() {
            self.bytes[self.len] = byte;
            self.len += 1;
        }
    }
}

impl<R: Print + AsRawFd + Drop> Sink for LastLine<R> {
    ghost faults = { λ s. ⟦<ErrSink<R> as Sink>⟧.faults s.sink };

    ghost told = { λ s. ⟦<ErrSink<R> as Sink>⟧.told s.sink };

    fn write(&mut self, bytes: &[u8]) -> Result<usize, Failed> {
        match self.sink.write(bytes) {
            Ok(n) => {
                self.kept.keep(&bytes[..n]);
                Ok(n)
            }
            Err(failed) => {
                self.has_failed = true;
                Err(failed)
            }
        }
    }
}
