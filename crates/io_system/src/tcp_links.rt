// Links over TCP. What happened on them is not told, and neither is which call failed.
ghost use Rattle.std.specs.Prelude.{◌≡◌, ◌≤◌, ◌<◌, [], ◌∷◌, ◌++◌, None, Some, true, false, IfOk, OnOk, OnErr, length, slice_get, slice_set};
ghost use Rattle.io_system.specs.TcpLinks.{live_of};

use crate::opening::{Opener, set_waits};
use crate::turns::{Turns, quiet_after};
use io_traits::{Failed, Got, Links, raised};
use std::alloc::Global;
use std::io;
use std::io::{ErrorKind, Read, Write};
use std::net::Net;
use std::time::{Clock, Duration};

// How often a send waits for a peer that takes nothing, a second each time.
const SEND_WAITS: u32 = 30;

/// Links over TCP. An address is `HOST:PORT`, where the host is a name or an IP address; one that is no UTF-8 text can't
/// be opened. A receive that gets nothing for 20 milliseconds is quiet, and one on a link that was answered without anything to give
/// at once. The opening fails where an address doesn't answer for 10 seconds, and a send where nothing goes out for 30. A link that
/// ended has closed its connection.
#[derive(Drop)]
pub struct TcpLinks<R: Net + Clock + Drop> {
    system: R,
    streams: Vec<Option<R::Stream>>,
    opener: Opener,
    turns: Turns,
    faults: u64,
    reason: Option<io::Error>,
}

impl<R: Net + Clock + Drop> TcpLinks<R> {
    /// Links that a runtime opens, of which none is open yet. No call has failed.
    pub fn new(alloc: Global, system: R) -> Self
        ensures live { ⟦<TcpLinks<R> as Links>⟧.live result ≡ [] }
        ensures faults { ⟦<TcpLinks<R> as Links>⟧.faults result ≡ 0 }
    {
        TcpLinks {
            system,
            streams: Vec::new(alloc),
            opener: Opener::new(alloc),
            turns: Turns::new(alloc),
            faults: 0,
            reason: None,
        }
    }

    /// Why the last call that failed did so, in the system's words, for the one who reads the message.
    pub fn reason(&self) -> Option<&io::Error> {
        self.reason.as_ref()
    }
}

impl<R: Net + Clock + Drop> Links for TcpLinks<R> {
    ghost use Rattle.io_system.specs.TcpLinks.{live_of};

    ghost faults = { λ s. s.faults };

    ghost live = { λ s. live_of s.streams.items };

    ghost trace = { λ s. None };

    ghost blame = { λ s. None };

    ghost keeps_turns = { false };

    fn open(&mut self, address: &[u8]) -> Result<u32, Failed> {
        let opened = open_next(
            &self.system,
            &mut self.streams,
            &mut self.opener,
            &mut self.turns,
            address,
        );
        match opened {
            Ok(link) => Ok(link),
            Err(error) => {
                self.reason = Some(error);
                self.faults = raised(self.faults);
                Err(Failed)
            }
        }
    }

    fn send(&mut self, link: u32, bytes: &[u8]) -> Result<usize, Failed> {
        match write_to(&mut self.streams, link as usize, bytes) {
            Ok(n) => Ok(n),
            Err(error) => {
                close(&mut self.streams, link as usize);
                self.reason = Some(error);
                self.faults = raised(self.faults);
                Err(Failed)
            }
        }
    }

    fn receive(&mut self, link: u32, buf: &mut [u8]) -> Got {
        if self.turns.is_left_quiet(link) {
            return Got::Quiet;
        }
        let read = read_from(&mut self.streams, link as usize, buf);
        self.turns.note_heard(&self.system, link);
        match read {
            Ok(0) => {
                close(&mut self.streams, link as usize);
                Got::Closed
            }
            Ok(n) => Got::Bytes(n),
            Err(error) if is_quiet(&error) => Got::Quiet,
            Err(error) => {
                close(&mut self.streams, link as usize);
                self.reason = Some(error);
                self.faults = raised(self.faults);
                Got::Failed
            }
        }
    }

    fn first_ready(&mut self, waiting: &[u32]) -> usize {
        self.turns.first(&self.system, &self.streams, waiting)
    }
}

// Opens a link to an address behind those of other links, and answers its number. The room for it comes first, so that
// there is no connection without a link.
fn open_next<R: Net + Clock>(
    system: &R,
    streams: &mut Vec<Option<R::Stream>>,
    opener: &mut Opener,
    turns: &mut Turns,
    address: &[u8],
) -> io::Result<u32>
    ensures number { IfOk result (λ link. link ≡ length (live_of streams.old.items)) }
    ensures ok { OnOk result (live_of streams.new.items ≡ live_of streams.old.items ++ true ∷ []) }
    ensures err { OnErr result (live_of streams.new.items ≡ live_of streams.old.items) }
{
    let number = streams.len();
    if number > u32::MAX as usize {
        return Err(io::Error::new(ErrorKind::Unsupported, "too many links"));
    }
    if streams.reserve(1).is_err() {
        return Err(io::Error::from(ErrorKind::OutOfMemory));
    }
    let stream = match connect(system, opener, turns, address) {
        Ok(stream) => stream,
        Err(error) => return Err(error),
    };
    match streams.push(Some(stream)) {
        Ok(()) => Ok(number as u32),
        Err(_) => unreachable!(),
    }
}

// Connects to an address, and has the link take its turns.
fn connect<R: Net + Clock>(
    system: &R,
    opener: &mut Opener,
    turns: &mut Turns,
    address: &[u8],
) -> io::Result<R::Stream> {
    let stream = opener.connect(system, address)?;
    set_waits(&stream, quiet_after(), Duration::from_secs(1))?;
    if turns.add(system).is_err() {
        return Err(io::Error::from(ErrorKind::OutOfMemory));
    }
    Ok(stream)
}

// Writes a front of the bytes on the link of a number.
#[tactic(auto, using(crate::proofs::TcpLives::stays_live))]
fn write_to<S: Write>(streams: &mut Vec<Option<S>>, at: usize, bytes: &[u8]) -> io::Result<usize>
    requires { slice_get (live_of streams.old.items) at ≡ Some true }
    ensures live { live_of streams.new.items ≡ live_of streams.old.items }
    ensures bound { IfOk result (λ n. n ≤ length bytes.now) }
    ensures some { IfOk result (λ n. 0 < length bytes.now → 0 < n) }
{
    match &mut streams[at] {
        Some(stream) => write_some(stream, bytes),
        None => unreachable!(),
    }
}

// Writes a front of the bytes, as soon as the peer takes some. A peer that takes none for so long takes no more.
fn write_some<S: Write>(stream: &mut S, bytes: &[u8]) -> io::Result<usize>
    ensures bound { IfOk result (λ n. n ≤ length bytes.now) }
    ensures some { IfOk result (λ n. 0 < length bytes.now → 0 < n) }
{
    for _ in 0..SEND_WAITS {
        match write_once(stream, bytes) {
            Ok(n) => return Ok(n),
            Err(error) if is_quiet(&error) => {}
            Err(error) => return Err(error),
        }
    }
    Err(io::Error::new(ErrorKind::TimedOut, "the server takes no more bytes"))
}

// Writes a front of the bytes, again where a signal came in between, which no connection does without end. A write that
// takes none of them has failed.
fn write_once<S: Write>(stream: &mut S, bytes: &[u8]) -> io::Result<usize>
    ensures bound { IfOk result (λ n. n ≤ length bytes.now) }
    ensures some { IfOk result (λ n. 0 < length bytes.now → 0 < n) }
{
    for _ in 0..u64::MAX {
        match stream.write(bytes) {
            Ok(n) if n > 0 || bytes.is_empty() => return Ok(n),
            Ok(_) => return Err(io::Error::from(ErrorKind::WriteZero)),
            Err(error) if error.kind() == ErrorKind::Interrupted => {}
            Err(error) => return Err(error),
        }
    }
    Err(io::Error::from(ErrorKind::Interrupted))
}

// Reads to the front of a buffer from the link of a number.
#[tactic(auto, using(crate::proofs::TcpLives::stays_live))]
fn read_from<S: Read>(streams: &mut Vec<Option<S>>, at: usize, buf: &mut [u8]) -> io::Result<usize>
    requires { slice_get (live_of streams.old.items) at ≡ Some true }
    ensures live { live_of streams.new.items ≡ live_of streams.old.items }
    ensures bound { IfOk result (λ n. n ≤ length buf.new) }
{
    match &mut streams[at] {
        Some(stream) => read_some(stream, buf),
        None => unreachable!(),
    }
}

// Reads, and again where a signal came in between, which no connection does without end.
fn read_some<S: Read>(stream: &mut S, buf: &mut [u8]) -> io::Result<usize>
    ensures { IfOk result (λ n. n ≤ length buf.new) }
{
    for _ in 0..u64::MAX {
        match stream.read(buf) {
            Ok(n) => return Ok(n),
            Err(error) if error.kind() == ErrorKind::Interrupted => {}
            Err(error) => return Err(error),
        }
    }
    Err(io::Error::from(ErrorKind::Interrupted))
}

// Closes the connection of the link of a number.
#[tactic(auto, using(crate::proofs::TcpLives::no_longer_live))]
fn close<S: Drop>(streams: &mut Vec<Option<S>>, at: usize)
    requires { at < length (live_of streams.old.items) }
    ensures { live_of streams.new.items ≡ slice_set (live_of streams.old.items) at false }
{
    streams[at] = None;
}

// Whether a call waited and nothing came or went.
fn is_quiet(error: &io::Error) -> bool {
    matches!(error.kind(), ErrorKind::WouldBlock | ErrorKind::TimedOut)
}
