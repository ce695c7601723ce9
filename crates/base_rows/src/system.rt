// The real objects: they are proved against the traits, and what the system does with them is tried here.
ghost use Rattle.std.specs.Prelude.{◌≡◌, Some};

use crate::fixtures::filled;
use io_system::{ErrSink, FileInput, OutSink};
use io_traits::{Input, Sink};
use std::fmt::Display;
use std::io::{ErrorKind, Read, Write};
use std::net::Net;
use std::os::fd::{AsRawFd, RawFd};
use std::os::unix::net::UnixStream;
use std::process::Abort;
use std::{fs, io};

// Asserts that there is no such file.
fn lacks<I: Input + Drop, R: Abort>(rt: &R, mut input: I, name: &str) -> I {
    assert!(rt; input.open(name).is_err());
    input
}

// Asserts that a read of 4 bytes at a place of the current file, which has this size, gets these.
fn reads<I: Input + Drop, R: Abort>(rt: &R, mut input: I, size: u64, place: u64, wanted: &[u8]) -> I
    requires { I.current input ≡ Some size }
    ensures { I.current result ≡ Some size }
{
    assert!(rt; place < size);
    let mut piece = [0; 4];
    let n = input.read_at(place, &mut piece).expect(rt, "a read");
    assert!(rt; n == wanted.len() && piece.starts_with(wanted));
    input
}

// Asserts that a file has this size, and these bytes at these places.
fn has<I: Input + Drop, R: Abort>(
    rt: &R,
    mut input: I,
    name: &str,
    size: u64,
    rows: &[(u64, &str)],
) -> I {
    let len = input.open(name).expect(rt, "a file");
    assert_eq!(rt; len, size);
    for row in rows {
        input = reads(rt, input, size, row.0, row.1.as_bytes());
    }
    input
}

// How many bytes a long file has: more than two buffers.
const LONG: usize = 200_000;

// Puts bytes at a place.
fn put_at(content: &mut [u8], place: usize, bytes: &[u8]) {
    if let Some(rest) = content.get_mut(place..) {
        for (one, byte) in rest.iter_mut().zip(bytes) {
            *one = *byte;
        }
    }
}

const SHORT_FILE: [(u64, &str); 2] = [(7, "89"), (0, "1234")];

const LONG_FILE: [(u64, &str); 3] = [(150_000, "far!"), (70_000, "near"), (199_999, ".")];

#[test]
fn files_are_opened_and_read(rt: HostRuntime) {
    let mut content = filled(&rt, b'.', LONG);
    put_at(&mut content, 70_000, b"near");
    put_at(&mut content, 150_000, b"far!");
    fs::write(&rt, "long file", content.as_slice()).expect(&rt, "a file");
    fs::write(&rt, "some file", b"123456789").expect(&rt, "a file");
    let input = lacks(&rt, FileInput::new(&rt), "none");
    assert!(rt; input.reason().is_some());
    let input = lacks(&rt, input, ".");
    let input = has(&rt, input, "some file", 9, &SHORT_FILE);
    has(&rt, input, "long file", 200_000, &LONG_FILE);
}

// Asserts that a sink takes so many of these bytes.
fn takes<S: Sink + Drop, R: Abort>(rt: &R, mut sink: S, bytes: &[u8], count: usize) -> S {
    let n = sink.write(bytes).expect(rt, "a write");
    assert_eq!(rt; n, count);
    sink
}

#[test]
fn standard_streams_take_bytes(rt: HostRuntime) {
    let out = takes(&rt, OutSink::new(rt.stdout()), b"out\n", 4);
    takes(&rt, out, b"", 0);
    takes(&rt, ErrSink::new(rt.stderr()), b"err\n", 4);
}

// A stream whose bytes go to a socket of this machine. Without one it takes no byte.
#[derive(Drop)]
struct SocketStream {
    socket: Option<UnixStream>,
}

impl AsRawFd for SocketStream {
    fn as_raw_fd(&self) -> RawFd {
        match &self.socket {
            Some(socket) => socket.as_raw_fd(),
            None => -1,
        }
    }
}

impl Print for SocketStream {
    fn print<D: Display + Drop>(&self, _value: D) -> io::Result<()> {
        Err(io::Error::from(ErrorKind::Unsupported))
    }

    fn println<D: Display + Drop>(&self, _value: D) -> io::Result<()> {
        Err(io::Error::from(ErrorKind::Unsupported))
    }

    fn write_all(&self, _bytes: &[u8]) -> io::Result<()> {
        Err(io::Error::from(ErrorKind::Unsupported))
    }

    fn write_some(&self, bytes: &[u8]) -> io::Result<usize> {
        match &self.socket {
            Some(socket) => {
                let mut socket = socket;
                socket.write(bytes)
            }
            None => Ok(0),
        }
    }
}

#[test]
fn a_write_of_no_byte_is_a_fault(rt: HostRuntime) {
    let mut out = OutSink::new(SocketStream { socket: None });
    assert!(rt; out.write(b"out\n").is_err());
    assert!(rt; out.reason().is_some());
    assert!(rt; out.write(b"").is_ok());
}

// How many bytes come until none does any more.
fn count_all(mut socket: UnixStream) -> usize {
    let mut buf = [0; 2048];
    let mut count: usize = 0;
    for _ in 0..1_000_000 {
        match socket.read(&mut buf) {
            Ok(n) if n > 0 => count = count.saturating_add(n),
            _ => return count,
        }
    }
    count
}

// Two ends of a connection that don't wait.
fn pair_of<R: Abort + Net>(rt: &R) -> (UnixStream, UnixStream) {
    let (socket, reader) = UnixStream::pair(rt).expect(rt, "a pair");
    socket.set_nonblocking(true).expect(rt, "a socket");
    reader.set_nonblocking(true).expect(rt, "a reader");
    (socket, reader)
}

#[test]
fn a_write_of_a_part_is_told_as_that(rt: HostRuntime) {
    let (socket, reader) = pair_of(&rt);
    let mut out = OutSink::new(SocketStream {
        socket: Some(socket),
    });
    let many = filled(&rt, b'x', 8_000_000);
    let written = out.write(many.as_slice()).expect(&rt, "a write");
    assert!(rt; written > 0);
    assert!(rt; written < 8_000_000, "the socket takes a part");
    assert_eq!(rt; count_all(reader), written);
}
