// The opening of connections, each within its limit of time.

use std::alloc::Global;
use std::io;
use std::io::ErrorKind;
use std::net::{Net, OpenStream, SocketAddr, TcpStream, ToSocketAddrs};
use std::time::Duration;

// How long the opening of a connection to one address may take, in seconds.
const OPENED_WITHIN: u64 = 10;

/// Opens connections. An address whose opening ran into its limit isn't tried again, or many links to one server that is down
/// would take that time each.
#[derive(Drop)]
pub(crate) struct Opener {
    silent: Vec<SocketAddr>,
}

impl Opener {
    /// An opener that has tried no address.
    pub(crate) fn new(alloc: Global) -> Self {
        Opener {
            silent: Vec::new(alloc),
        }
    }

    /// Connects to an address, `HOST:PORT`, where the host is a name or an IP address: to the first of the name's addresses that
    /// answers. Where none does, the reason is that of the last.
    pub(crate) fn connect<R: Net>(&mut self, system: &R, address: &[u8]) -> io::Result<R::Stream> {
        let Ok(address) = str::from_utf8(address) else {
            return Err(io::Error::new(ErrorKind::InvalidInput, "the address is not UTF-8 text"));
        };
        let mut last = io::Error::new(ErrorKind::InvalidInput, "the name has no address");
        for place in address.to_socket_addrs(system)? {
            match self.connect_to(system, place) {
                Ok(stream) => return Ok(stream),
                Err(error) => last = error,
            }
        }
        Err(last)
    }

    // Connects to one address, unless it is one that ran into its limit before. Where there is no memory to keep it, it is tried again.
    fn connect_to<R: Net>(&mut self, system: &R, place: SocketAddr) -> io::Result<R::Stream> {
        if self.silent.as_slice().contains(&place) {
            return Err(io::Error::new(ErrorKind::TimedOut, "there was no answer before"));
        }
        let limit = Duration::from_secs(OPENED_WITHIN);
        match TcpStream::connect_timeout(system, &place, limit) {
            Ok(stream) => Ok(stream),
            Err(error) => {
                if error.kind() == ErrorKind::TimedOut {
                    let _ = self.silent.push(place);
                }
                Err(error)
            }
        }
    }
}

/// Sets how long a read and a write wait. Requests are short and wait for their answers, so none is held back to be joined with the next.
pub(crate) fn set_waits<S: OpenStream>(
    stream: &S,
    read: Duration,
    write: Duration,
) -> io::Result<()> {
    stream.set_read_timeout(Some(read))?;
    stream.set_write_timeout(Some(write))?;
    stream.set_nodelay(true)
}
