// Where a news server is.
ghost use Rattle.std.specs.Prelude.{◌≡◌, ◌↔◌, IsTrue};
ghost use Rattle.std.specs.List.{list_all};
ghost use Rattle.server_logins.specs.Server.{IsServer, is_host, is_host_byte, is_port, is_server};

use crate::cut::cut_at;
use numbers::read_dec;

/// Whether a text says where a server is: `HOST:PORT`, where the host is 1 to 253 letters, digits, dots and dashes, and
/// the port a decimal number from 1 to 65535 without leading zeros.
pub fn is_server(text: &[u8]) -> bool
    ensures test { result ≡ is_server text.now }
    ensures rule { IsTrue result ↔ IsServer text.now }
{
    are_host_and_port(text)
}

fn are_host_and_port(text: &[u8]) -> bool
    ensures { result ≡ is_server text.now }
{
    match cut_at(text, b':') {
        Some(cut) => is_host(cut.front) && is_port(cut.behind),
        None => false,
    }
}

fn is_host(host: &[u8]) -> bool
    ensures { result ≡ is_host host.now }
{
    !host.is_empty() && host.len() <= 253 && are_host_bytes(host)
}

fn are_host_bytes(host: &[u8]) -> bool
    ensures { result ≡ list_all is_host_byte host.now }
{
    host.iter().all(|byte| byte.is_ascii_alphanumeric() || *byte == b'-' || *byte == b'.')
}

fn is_port(port: &[u8]) -> bool
    ensures { result ≡ is_port port.now }
{
    if port.is_empty() || port[0] == b'0' {
        return false;
    }
    match read_dec(port, 65535) {
        Some(number) => number >= 1,
        None => false,
    }
}
