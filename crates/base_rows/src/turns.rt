// Which of the links over TCP that wait is heard next, and addresses that don't answer.
ghost use Rattle.std.specs.Prelude.{◌≡◌, slice_get, Some, true};

use crate::fixtures::{door_of, ends, hears, opened, peer_of, refused, shut};
use io_system::TcpLinks;
use io_traits::{Got, Links};
use std::cell::Cell;
use std::io;
use std::io::{ErrorKind, Write};
use std::net::{Net, SocketAddr, TcpListener, TcpStream};
use std::process::Abort;
use std::time::{Clock, Duration, Instant};

// Opens two links, which are live.
fn opened_two<L: Links + Drop, R: Abort>(rt: &R, mut links: L, address: &[u8]) -> (L, u32, u32)
    ensures first { slice_get (L.live result.0) result.1 ≡ Some true }
    ensures second { slice_get (L.live result.0) result.2 ≡ Some true }
{
    let first = links.open(address).expect(rt, "a link");
    let second = links.open(address).expect(rt, "a link");
    (links, first, second)
}

// Which of two links is heard next, by its number.
fn next_of<L: Links>(links: &mut L, first: u32, second: u32) -> u32
    requires first { slice_get (L.live links.old) first ≡ Some true }
    requires second { slice_get (L.live links.old) second ≡ Some true }
    ensures first { slice_get (L.live links.new) first ≡ Some true }
    ensures second { slice_get (L.live links.new) second ≡ Some true }
    ensures live { slice_get (L.live links.new) result ≡ Some true }
{
    if links.first_ready(&[first, second]) == 0 {
        first
    } else {
        second
    }
}

// Asserts that the second link is heard next.
fn is_second<L: Links + Drop, R: Abort>(rt: &R, mut links: L, first: u32, second: u32) -> L
    requires first { slice_get (L.live links) first ≡ Some true }
    requires second { slice_get (L.live links) second ≡ Some true }
    ensures first { slice_get (L.live result) first ≡ Some true }
    ensures second { slice_get (L.live result) second ≡ Some true }
{
    assert_eq!(rt; next_of(&mut links, first, second), second);
    links
}

// Asserts that so many receives on two links, each on the one that is next, are quiet. How many were on the first?
fn quiet_turns<L: Links + Drop, R: Abort>(
    rt: &R,
    mut links: L,
    first: u32,
    second: u32,
    count: u32,
) -> (L, u32)
    requires first { slice_get (L.live links) first ≡ Some true }
    requires second { slice_get (L.live links) second ≡ Some true }
    ensures first { slice_get (L.live result.0) first ≡ Some true }
    ensures second { slice_get (L.live result.0) second ≡ Some true }
{
    let mut of_first: u32 = 0;
    for _turn in 0..count {
        let link = next_of(&mut links, first, second);
        links = hears(rt, links, link, 8, b"");
        of_first = of_first.saturating_add(if link == first { 1 } else { 0 });
    }
    (links, of_first)
}

#[test]
fn quiet_links_take_turns_until_one_has_bytes(rt: HostRuntime) {
    let door = door_of(&rt);
    let links = TcpLinks::new(rt.alloc(), &rt);
    let (links, first, second) = opened_two(&rt, links, door.address.as_bytes());
    let _first_peer = peer_of(&rt, &door);
    let mut second_peer = peer_of(&rt, &door);
    let (links, of_first) = quiet_turns(&rt, links, first, second, 4);
    assert_eq!(rt; of_first, 2, "they are answered in turn");
    let begun = Instant::now(&rt).expect(&rt, "a clock");
    let (links, of_first) = quiet_turns(&rt, links, first, second, 20);
    let passed = begun.elapsed(&rt).expect(&rt, "a clock");
    // Ten on each link take 200 milliseconds, and those of both pass together.
    assert!(rt; of_first <= 10 && passed >= Duration::from_millis(180));
    second_peer.write_all(b"200 hi\r\n").expect(&rt, "a peer");
    let links = is_second(&rt, links, first, second);
    let links = hears(&rt, links, second, 8, b"200 hi\r\n");
    drop(second_peer);
    let links = is_second(&rt, links, first, second);
    ends(&rt, links, second, Got::Closed);
}

// A network on which no address answers, that counts the openings.
#[derive(Drop)]
struct SilentNet {
    tries: Cell<u32>,
}

impl Net for &SilentNet {
    type Stream = TcpStream;

    type Listener = TcpListener;

    fn bind(&self, _addr: SocketAddr) -> io::Result<TcpListener> {
        Err(io::Error::from(ErrorKind::Unsupported))
    }

    fn connect(&self, _addr: SocketAddr) -> io::Result<TcpStream> {
        Err(io::Error::from(ErrorKind::Unsupported))
    }

    fn connect_timeout(&self, _addr: SocketAddr, timeout: Duration) -> io::Result<TcpStream> {
        self.tries.set(self.tries.get().saturating_add(1));
        if timeout == Duration::from_secs(10) {
            Err(io::Error::from(ErrorKind::TimedOut))
        } else {
            Err(io::Error::from(ErrorKind::InvalidInput))
        }
    }
}

impl Clock for &SilentNet {
    fn monotonic(&self) -> io::Result<Duration> {
        Ok(Duration::ZERO)
    }

    fn since_1970(&self) -> io::Result<Duration> {
        Ok(Duration::ZERO)
    }
}

#[test]
fn an_address_that_does_not_answer_is_not_tried_again(rt: HostRuntime) {
    let net = SilentNet {
        tries: Cell::new(0),
    };
    let links = TcpLinks::new(rt.alloc(), &net);
    let links = refused(&rt, links, b"127.0.0.1:119");
    let links = refused(&rt, links, b"127.0.0.1:119");
    assert_eq!(rt; net.tries.get(), 1);
    refused(&rt, links, b"127.0.0.1:120");
    assert_eq!(rt; net.tries.get(), 2);
}

#[test]
fn an_address_that_refused_is_tried_again(rt: HostRuntime) {
    let address = shut(door_of(&rt));
    let links = TcpLinks::new(rt.alloc(), &rt);
    let links = refused(&rt, links, address.as_bytes());
    assert!(rt; links.reason().is_some());
    let _listener = TcpListener::bind(&rt, address.as_str()).expect(&rt, "a listener");
    opened(&rt, links, address.as_bytes());
}
