// The news servers that the words of `fetch` name.
ghost use Rattle.std.specs.Prelude.{◌≡◌, ◌≤◌, ◌<◌, ◌++◌, ◌∷◌, [], IfSome, length, map, string_bytes};
ghost use Rattle.std.specs.Option.{option_map};
ghost use Rattle.command_words.specs.Asked.{paired};
ghost use Rattle.command_words.specs.Keys.{values_of};
ghost use Rattle.command_words.specs.Servers.{is_next_server, links_of, marked_model, marked_of, server_found, server_of, servers_of};
ghost use Rattle.limits.specs.declared.TheConstants.{MOST_SERVERS};

use crate::keys::number_in;
use limits::{MOST_LEVEL, MOST_LINKS, MOST_SERVERS};
use server_logins::{cut_at, is_server};
use std::marker::Model;

/// A news server that a fetch asks.
#[derive(Clone, Copy, Debug)]
pub struct ServerWords<'a> {
    /// Its address, `HOST:PORT`.
    pub address: &'a [u8],
    /// Over how many links it is asked, 1 to `MOST_LINKS`.
    pub links: u32,
    /// Its level, 0 to `MOST_LEVEL`. A server is asked only for what those of lower levels don't have.
    pub level: u8,
}

/// At most `MOST_SERVERS` news servers, in an array of its own. Contracts see the list of what is asked of them.
#[derive(Clone, Debug, Drop)]
pub struct Servers<'a> {
    all: [ServerWords<'a>; MOST_SERVERS],
    len: usize,
}

impl<'a> Model for Servers<'a> {
    ghost use Rattle.std.specs.Prelude.{◌≡◌, ◌≤◌, List, length, map, take};
    ghost use Rattle.command_words.specs.Servers.{ServerAsked, server_found};
    ghost use Rattle.limits.specs.declared.TheConstants.{MOST_SERVERS};

    ghost Value = { List ServerAsked };

    ghost view = { λ servers. map server_found (take servers.len servers.all) };

    ghost invariant = { λ servers. (servers.len ≤ MOST_SERVERS) × (length servers.all ≡ MOST_SERVERS) };
}

impl<'a> Servers<'a> {
    fn new() -> Servers<'a>
        ensures { result ≡ [] }
    {
        let nowhere = ServerWords {
            address: b"",
            links: 0,
            level: 0,
        };
        Servers {
            all: [nowhere; MOST_SERVERS],
            len: 0,
        }
    }

    // Puts one more behind them.
    fn push(&mut self, server: ServerWords<'a>)
        requires { length self.old < MOST_SERVERS }
        ensures { self.new ≡ self.old ++ server_found server.entry ∷ [] }
    {
        self.all[self.len] = server;
        self.len += 1;
    }

    /// All of them, in the order of the words.
    pub fn as_slice(&self) -> &[ServerWords<'a>]
        ensures servers { map server_found result.now ≡ self.now }
        ensures few { length result.now ≤ MOST_SERVERS }
    {
        let all = &self.all[..];
        &all[..self.len]
    }
}

/// The servers that the values of a key name, in the pairs that these words are.
pub(crate) fn servers_in<'a>(words: &'a [String], key: &str) -> Servers<'a>
    requires { length (values_of key.now (paired (map string_bytes words.now))) ≤ MOST_SERVERS }
    ensures { result ≡ servers_of (values_of key.now (paired (map string_bytes words.now))) }
{
    let mut servers = Servers::new();
    let mut at = 0;
    while at + 1 < words.len() {
        if key == words[at].as_str() {
            add_server(&mut servers, words[at + 1].as_bytes());
        }
        at += 2;
    }
    servers
}

// Puts the server that a value names behind others, if it names one.
fn add_server<'a>(servers: &mut Servers<'a>, value: &'a [u8])
    requires { length servers.old < MOST_SERVERS }
    ensures { servers.new ≡ servers.old ++ servers_of (value.now ∷ []) }
{
    match read_server(value) {
        Some(server) => servers.push(server),
        None => {}
    }
}

/// Whether a value names a server whose links are at most `MOST_LINKS` with those of the servers that the key names before it.
pub(crate) fn is_next_server(before: &[String], key: &str, value: &[u8]) -> bool
    requires { length (values_of key.now (paired (map string_bytes before.now))) ≤ MOST_SERVERS }
    ensures { result ≡ is_next_server (values_of key.now (paired (map string_bytes before.now))) value.now }
{
    match read_server(value) {
        Some(server) => {
            links_of(servers_in(before, key).as_slice()) + u64::from(server.links)
                <= MOST_LINKS as u64
        }
        None => false,
    }
}

// How many links servers have together.
fn links_of(servers: &[ServerWords<'_>]) -> u64
    requires { length servers.now ≤ MOST_SERVERS }
    ensures links { result ≡ links_of (map server_found servers.now) }
    ensures most { result ≤ 68719476720 }
{
    let mut links = 0;
    for server in servers {
        links += u64::from(server.links);
    }
    links
}

// The server that a value names: `HOST:PORT`, then `*` and how many links, then `@` and its level.
fn read_server(value: &[u8]) -> Option<ServerWords<'_>>
    ensures { option_map server_found result ≡ server_of value.now }
{
    let Some(leveled) = read_marked(value, b'@', 0, MOST_LEVEL as u64, 0) else {
        return None;
    };
    let Some(linked) = read_marked(leveled.front, b'*', 1, MOST_LINKS as u64, 1) else {
        return None;
    };
    if !is_server(linked.front) {
        return None;
    }
    Some(ServerWords {
        address: linked.front,
        links: linked.number as u32,
        level: leveled.number as u8,
    })
}

// A text in front of a mark, and the number behind it.
#[derive(Clone, Copy, Debug)]
struct Marked<'a> {
    front: &'a [u8],
    number: u64,
}

// A text that ends with a mark and a number, or the whole text and a default where the mark doesn't stand.
fn read_marked(text: &[u8], mark: u8, least: u64, most: u64, default: u64) -> Option<Marked<'_>>
    requires { default ≤ most }
    ensures marked { option_map marked_model result ≡ marked_of mark least most default text.now }
    ensures most { IfSome result (λ marked. marked.number ≤ most) }
{
    let Some(cut) = cut_at(text, mark) else {
        return Some(Marked {
            front: text,
            number: default,
        });
    };
    match number_in(cut.behind, least, most) {
        Some(number) => Some(Marked {
            front: cut.front,
            number,
        }),
        None => None,
    }
}
