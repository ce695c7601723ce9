// What the tests hand in, and what they ask of links.
ghost use Rattle.std.specs.Prelude.{◌≡◌, ◌<◌, length, slice_get, Some, true, IfSome};

use io_traits::{Got, Links};
use std::net::{Net, TcpListener, TcpStream};
use std::process::Abort;

/// So many bytes, all of them the same.
pub(crate) fn filled<R: Abort + AllocGlobal>(rt: &R, byte: u8, count: usize) -> Vec<u8> {
    vec![in rt.alloc(); byte; count].expect(rt, "bytes")
}

/// A listener of this machine, and its address.
#[derive(Drop)]
pub(crate) struct Door {
    listener: TcpListener,
    pub(crate) address: String,
}

/// A listener on a port that was free.
pub(crate) fn door_of<R>(rt: &R) -> Door
where
    R: Abort + AllocGlobal + Net<Listener = TcpListener, Stream = TcpStream>,
{
    let listener = TcpListener::bind(rt, "127.0.0.1:0").expect(rt, "a listener");
    let here = listener.local_addr().expect(rt, "its address");
    let address = format!(in rt.alloc(); "{here}").expect(rt, "a text");
    Door { listener, address }
}

/// The peer of the next link that was opened to a door.
pub(crate) fn peer_of<R: Abort>(rt: &R, door: &Door) -> TcpStream {
    let (peer, _) = door.listener.accept().expect(rt, "a peer");
    peer
}

/// The address of a door that is shut.
pub(crate) fn shut(door: Door) -> String {
    let Door { listener, address } = door;
    drop(listener);
    address
}

/// Opens a link, which is live.
pub(crate) fn opened<L: Links + Drop, R: Abort>(rt: &R, mut links: L, address: &[u8]) -> (L, u32)
    ensures { slice_get (L.live result.0) result.1 ≡ Some true }
{
    let link = links.open(address).expect(rt, "a link");
    (links, link)
}

/// Asserts that no link can be opened to an address.
pub(crate) fn refused<L: Links + Drop, R: Abort>(rt: &R, mut links: L, address: &[u8]) -> L {
    assert!(rt; links.open(address).is_err());
    links
}

/// How many bytes a receive gets, where it doesn't end the link: none where it is quiet.
pub(crate) fn hear<L: Links>(links: &mut L, link: u32, buf: &mut [u8]) -> Option<usize>
    requires live { slice_get (L.live links.old) link ≡ Some true }
    requires room { 0 < length buf.old }
    ensures live { IfSome result (λ n. L.live links.new ≡ L.live links.old) }
{
    match links.receive(link, buf) {
        Got::Bytes(n) => Some(n),
        Got::Quiet => Some(0),
        Got::Closed | Got::Failed => None,
    }
}

/// Asserts that a receive with this room, of at most 8 bytes, gets these bytes: none where it is quiet.
pub(crate) fn hears<L: Links + Drop, R: Abort>(
    rt: &R,
    mut links: L,
    link: u32,
    room: usize,
    wanted: &[u8],
) -> L
    requires { slice_get (L.live links) link ≡ Some true }
    ensures { L.live result ≡ L.live links }
{
    assert!(rt; 0 < room && room <= 8);
    let mut buf = [0; 8];
    let n = hear(&mut links, link, &mut buf[..room]).expect(rt, "the link goes on");
    assert!(rt; n == wanted.len() && buf.starts_with(wanted));
    links
}

/// Asserts that a receive ends the link so.
pub(crate) fn ends<L: Links + Drop, R: Abort>(rt: &R, mut links: L, link: u32, how: Got) -> L
    requires { slice_get (L.live links) link ≡ Some true }
{
    assert_eq!(rt; links.receive(link, &mut [0; 8]), how);
    links
}

/// Asserts that bytes, at least one, go out whole.
pub(crate) fn says<L: Links + Drop, R: Abort>(rt: &R, mut links: L, link: u32, bytes: &[u8]) -> L
    requires { slice_get (L.live links) link ≡ Some true }
    ensures { L.live result ≡ L.live links }
{
    assert!(rt; !bytes.is_empty());
    let n = links.send(link, bytes).expect(rt, "the link goes on");
    assert_eq!(rt; n, bytes.len());
    links
}
