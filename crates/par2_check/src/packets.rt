// The packets of a text.
ghost use Rattle.std.specs.Prelude.{◌≡◌, ◌≤◌, ◌<◌, length, slice_get, Some, IfOk};
ghost use Rattle.par2_check.specs.Packets.{ArePackets, IsNextPacket};
ghost use Rattle.par2_check.specs.PacketLength.{packet_len};

use crate::fields::{long_at, part, sixteen_at};
use lists::{List, Memory};
use md5::{Digest, Md5};
use memchr::memmem::Finder;
use std::alloc::Global;
use std::marker::Model;

/// What a packet begins with.
pub const SIGNATURE: [u8; 8] = *b"PAR2\0PKT";

/// How many bytes stand before a packet's body.
pub const HEADER: usize = 64;

/// Where a packet stands: its first byte's place, counted from 0, and the place behind its last one.
#[derive(Clone, Copy)]
pub struct Span {
    start: usize,
    end: usize,
}

/// The packets of a text, which stay in it. Contracts see the list of their bytes.
#[derive(Drop)]
pub struct Packets<'a> {
    text: &'a [u8],
    spans: List<Span>,
}

impl<'a> Model for Packets<'a> {
    ghost use Rattle.std.specs.Prelude.{List, ℕ, length, map};
    ghost use Rattle.par2_check.specs.Packets.{AreWithin, span_bytes};

    ghost Value = { List (List ℕ) };

    ghost view = { λ packets. map (span_bytes packets.text.now) packets.spans };

    ghost invariant = { λ packets. AreWithin packets.spans (length packets.text.now) };
}

impl<'a> Packets<'a> {
    /// How many there are.
    pub fn len(&self) -> usize
        ensures { result ≡ length self.now }
    {
        self.spans.len()
    }

    /// The bytes of a packet, counted from 0.
    pub fn packet(&self, number: usize) -> &[u8]
        requires { number < length self.now }
        ensures { slice_get self.now number ≡ Some result.now }
    {
        let span = self.spans.as_slice()[number];
        &self.text[span.start..span.end]
    }
}

/// The packets of a text, from the left: at a place where a good one begins it is taken and the reading goes on behind it, else
/// one byte further on.
pub fn packets_of(alloc: Global, text: &[u8]) -> Result<Packets<'_>, Memory>
    ensures { IfOk result (ArePackets text.now) }
{
    let finder = Finder::new(&SIGNATURE);
    let mut spans = List::new(alloc);
    let mut at = 0;
    while let Some(span) = next_packet(text, at, &finder) {
        spans.push(span)?;
        at = span.end;
    }
    Ok(Packets { text, spans })
}

// The first good packet from a place on.
fn next_packet(text: &[u8], from: usize, finder: &Finder<'_>) -> Option<Span>
    requires signature { finder.now ≡ SIGNATURE }
    requires inside { from ≤ length text.now }
    ensures { IsNextPacket text.now from result }
{
    let mut at = from;
    while let Some(behind) = finder.find(&text[at..]) {
        let start = at + behind;
        match packet_len(&text[start..]) {
            Some(len) => {
                return Some(Span {
                    start,
                    end: start + len,
                });
            }
            None => at = start + 1,
        }
    }
    None
}

// How many bytes the good packet has that a text begins with.
fn packet_len(text: &[u8]) -> Option<usize>
    ensures { result ≡ packet_len text.now }
{
    if text.len() < HEADER || part(text, 0, 8) != SIGNATURE.as_slice() {
        return None;
    }
    let len = long_at(text, 8);
    if len < HEADER as u64 || len % 4 != 0 || len > text.len() as u64 {
        return None;
    }
    if Md5::digest(&text[32..len as usize]) != sixteen_at(text, 16) {
        return None;
    }
    Some(len as usize)
}
