// Links over TCP: they are proved against the trait, and what the system does with them is tried here, against a listener
// on this machine.
ghost use Rattle.std.specs.Prelude.{◌≡◌, slice_get, Some, true};

use crate::fixtures::{door_of, ends, filled, hear, hears, opened, peer_of, refused, says};
use io_system::TcpLinks;
use io_traits::{Got, Links};
use std::io;
use std::io::{ErrorKind, Read, Write};
use std::net::TcpStream;
use std::process::Abort;
use std::time::Duration;

// Asserts that these bytes, at most 8, come to the peer.
fn reads<R: Abort>(rt: &R, mut peer: TcpStream, wanted: &[u8]) -> TcpStream {
    let mut buf = [0; 8];
    let len = wanted.len();
    assert!(rt; len <= 8);
    peer.read_exact(&mut buf[..len]).expect(rt, "bytes");
    assert!(rt; buf.starts_with(wanted));
    peer
}

#[test]
fn bytes_go_both_ways_until_the_peer_closes(rt: HostRuntime) {
    let door = door_of(&rt);
    let links = TcpLinks::new(rt.alloc(), &rt);
    let (links, link) = opened(&rt, links, door.address.as_bytes());
    assert_eq!(rt; link, 0);
    let mut peer = peer_of(&rt, &door);
    let links = hears(&rt, links, link, 8, b"");
    peer.write_all(b"200 hi\r\n").expect(&rt, "a peer");
    let links = hears(&rt, links, link, 8, b"200 hi\r\n");
    let links = says(&rt, links, link, b"QUIT\r\n");
    let peer = reads(&rt, peer, b"QUIT\r\n");
    assert!(rt; links.reason().is_none());
    drop(peer);
    let links = ends(&rt, links, link, Got::Closed);
    assert!(rt; links.reason().is_none());
}

// Asserts that the last call failed for this reason.
fn is_why<R: Abort + AllocGlobal>(rt: &R, reason: Option<&io::Error>, wanted: &str) {
    let reason = reason.expect(rt, "a failed call has a reason");
    let reason = format!(in rt.alloc(); "{reason}").expect(rt, "a text");
    assert_eq!(rt; reason.as_str(), wanted);
}

#[test]
fn an_address_that_is_no_text_is_a_fault(rt: HostRuntime) {
    let links = TcpLinks::new(rt.alloc(), &rt);
    let links = refused(&rt, links, b"127.0.0.1\xff:119");
    is_why(&rt, links.reason(), "the address is not UTF-8 text");
    refused(&rt, links, b"no port");
}

// How many bytes are sent past a reader that doesn't read: more than the system keeps for both.
const MANY: usize = 12_000_000;

// So many bytes, of which no two neighbours of a few hundred are the same.
fn many_bytes<R: Abort + AllocGlobal>(rt: &R) -> Vec<u8> {
    let mut many = filled(rt, 0, MANY);
    let mut byte = 0u8;
    for one in many.iter_mut() {
        *one = byte;
        byte = if byte >= 250 { 0 } else { byte + 1 };
    }
    many
}

// Whether these bytes stand at a place among many.
fn stand_at(many: &[u8], place: usize, bytes: &[u8]) -> bool {
    match many.get(place..) {
        Some(rest) => rest.starts_with(bytes),
        None => false,
    }
}

// Reads what has come to the peer, and answers the place behind it, unless other bytes came or the link ended.
fn read_all(peer: &mut TcpStream, many: &[u8], from: usize) -> Option<usize> {
    let mut buf = [0; 2048];
    let mut place = from;
    for _ in 0..1_000_000 {
        match peer.read(&mut buf) {
            Ok(n) if n > 0 => {
                if !stand_at(many, place, &buf[..n]) {
                    return None;
                }
                place = place.saturating_add(n);
            }
            Err(error) if error.kind() == ErrorKind::WouldBlock => return Some(place),
            _ => return None,
        }
    }
    None
}

// Sends from a place on, and answers the place behind what went out.
fn say_from<L: Links, R: Abort>(
    rt: &R,
    links: &mut L,
    link: u32,
    many: &[u8],
    place: usize,
) -> usize
    requires { slice_get (L.live links.old) link ≡ Some true }
    ensures { slice_get (L.live links.new) link ≡ Some true }
{
    match many.get(place..) {
        Some(rest) if !rest.is_empty() => {
            let n = links.send(link, rest).expect(rt, "the link goes on");
            place.saturating_add(n)
        }
        _ => place,
    }
}

// Sends from a place on, asserts that just what went out comes to the peer, and answers the place behind it.
fn exchange<L: Links, R: Abort>(
    rt: &R,
    links: &mut L,
    link: u32,
    peer: &mut TcpStream,
    many: &[u8],
    place: usize,
) -> usize
    requires { slice_get (L.live links.old) link ≡ Some true }
    ensures { slice_get (L.live links.new) link ≡ Some true }
{
    let sent = say_from(rt, links, link, many, place);
    let heard = read_all(peer, many, place).expect(rt, "the peer hears those bytes");
    assert_eq!(rt; heard, sent);
    sent
}

// Asserts that a link takes a part of many bytes, and all of them in turns.
fn takes_all<L: Links + Drop, R: Abort>(
    rt: &R,
    mut links: L,
    link: u32,
    peer: &mut TcpStream,
    many: &[u8],
) -> L
    requires { slice_get (L.live links) link ≡ Some true }
    ensures { slice_get (L.live result) link ≡ Some true }
{
    let mut sent = exchange(rt, &mut links, link, peer, many, 0);
    assert!(rt; sent < MANY, "the link takes a part");
    for _turn in 0..100 {
        if sent == MANY {
            break;
        }
        sent = exchange(rt, &mut links, link, peer, many, sent);
    }
    assert_eq!(rt; sent, MANY);
    links
}

// Writes from a place on as much as the peer's socket takes, and answers the place behind that.
fn write_all(peer: &mut TcpStream, many: &[u8], from: usize) -> usize {
    let mut place = from;
    for _ in 0..1_000_000 {
        match many.get(place..) {
            Some(rest) if !rest.is_empty() => match peer.write(rest) {
                Ok(n) => place = place.saturating_add(n),
                Err(_) => return place,
            },
            _ => return place,
        }
    }
    place
}

// Hears until a receive is quiet, asserts that no other bytes come, and answers the place behind what was heard.
fn hear_all<L: Links, R: Abort>(rt: &R, links: &mut L, link: u32, many: &[u8], from: usize) -> usize
    requires { slice_get (L.live links.old) link ≡ Some true }
    ensures { slice_get (L.live links.new) link ≡ Some true }
{
    let mut buf = [0; 2048];
    let mut place = from;
    for _turn in 0..1_000_000 {
        let n = hear(links, link, &mut buf).expect(rt, "the link goes on");
        if n == 0 {
            return place;
        }
        assert!(rt; n <= 2048, "no more than there is room for");
        assert!(rt; stand_at(many, place, &buf[..n]), "other bytes are heard");
        place = place.saturating_add(n);
    }
    place
}

// Asserts that all of many bytes are heard that a peer writes in turns.
fn gives_all<L: Links + Drop, R: Abort>(
    rt: &R,
    mut links: L,
    link: u32,
    peer: &mut TcpStream,
    many: &[u8],
)
    requires { slice_get (L.live links) link ≡ Some true }
{
    let mut written = 0;
    let mut heard = 0;
    for _turn in 0..100_000 {
        if heard == MANY {
            break;
        }
        written = write_all(peer, many, written);
        heard = hear_all(rt, &mut links, link, many, heard);
    }
    assert_eq!(rt; heard, MANY);
    assert_eq!(rt; written, MANY);
}

#[test]
fn many_bytes_go_both_ways(rt: HostRuntime) {
    let door = door_of(&rt);
    let links = TcpLinks::new(rt.alloc(), &rt);
    let (links, link) = opened(&rt, links, door.address.as_bytes());
    let mut peer = peer_of(&rt, &door);
    let many = many_bytes(&rt);
    let moment = Duration::from_millis(200);
    peer.set_read_timeout(Some(moment)).expect(&rt, "a peer");
    let links = takes_all(&rt, links, link, &mut peer, many.as_slice());
    peer.set_nonblocking(true).expect(&rt, "a peer");
    gives_all(&rt, links, link, &mut peer, many.as_slice());
}

#[test]
fn a_reset_is_a_fault(rt: HostRuntime) {
    let door = door_of(&rt);
    let links = TcpLinks::new(rt.alloc(), &rt);
    let (links, link) = opened(&rt, links, door.address.as_bytes());
    let peer = peer_of(&rt, &door);
    let links = says(&rt, links, link, b"GROUP a\r\n");
    assert!(rt; peer.peek(&mut [0; 8]).expect(&rt, "a peer") > 0);
    // A socket that is closed before all its bytes were read resets its connection.
    drop(peer);
    let links = ends(&rt, links, link, Got::Failed);
    assert!(rt; links.reason().is_some());
}
