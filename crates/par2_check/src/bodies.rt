// The packets that are read: Main, FileDesc and IFSC.
ghost use Rattle.std.specs.Prelude.{◌≡◌, ◌≤◌, length, IfOk};
ghost use Rattle.std.specs.Str.{bytes_eq};
ghost use Rattle.par2_check.specs.Bodies.{entry_count, entries_of, ids_of, is_desc, is_kind, is_main, is_slice_size, is_slices, name_of, set_id, slice_count, without_zeros};

use crate::fields::{long_at, part, sixteen_at, word_at};
use indexmap::IndexSet;
use limits::MOST_FILE_BYTES;
use lists::{List, Memory};
use std::alloc::Global;

const MAIN: [u8; 16] = *b"PAR 2.0\0Main\0\0\0\0";

const FILE_DESC: [u8; 16] = *b"PAR 2.0\0FileDesc";

const SLICES: [u8; 16] = *b"PAR 2.0\0IFSC\0\0\0\0";

/// The greatest size of a slice.
pub const MOST_SLICE: u64 = 1_073_741_824;

/// Whether a slice may have this size.
pub fn is_slice_size(size: u64) -> bool
    ensures { result ≡ is_slice_size size }
{
    4 <= size && size <= MOST_SLICE && size % 4 == 0
}

/// How many slices a file of so many bytes has, the last one perhaps shorter.
pub fn slice_count(slice: u64, size: u64) -> u64
    requires { 4 ≤ slice }
    ensures { result ≡ slice_count slice size }
{
    if size % slice == 0 {
        size / slice
    } else {
        size / slice + 1
    }
}

// Whether a packet has at least so many bytes, and this type.
fn is_kind(packet: &[u8], least: usize, kind: &[u8; 16]) -> bool
    requires { 64 ≤ least }
    ensures { result ≡ is_kind least kind.now packet.now }
{
    packet.len() >= least && part(packet, 48, 16) == kind.as_slice()
}

// Whether a packet belongs to a set.
fn is_of(packet: &[u8], set: &[u8; 16]) -> bool
    requires { 64 ≤ length packet.now }
    ensures { result ≡ bytes_eq (set_id packet.now) set.now }
{
    part(packet, 32, 16) == set.as_slice()
}

/// Whether a packet is a Main that counts.
pub fn is_main(packet: &[u8]) -> bool
    ensures { result ≡ is_main packet.now }
{
    if !is_kind(packet, 76, &MAIN) {
        return false;
    }
    if !is_slice_size(long_at(packet, 64)) {
        return false;
    }
    let ids = packet.len() - 76;
    if ids % 16 != 0 {
        return false;
    }
    word_at(packet, 72) as usize <= ids / 16
}

/// Whether a packet is a FileDesc of this set that counts.
pub fn is_desc(packet: &[u8], set: &[u8; 16]) -> bool
    ensures { result ≡ is_desc set.now packet.now }
{
    if !is_kind(packet, 120, &FILE_DESC) {
        return false;
    }
    is_of(packet, set) && long_at(packet, 112) <= MOST_FILE_BYTES
}

/// Whether a packet is an IFSC of this set that counts.
pub fn is_slices(packet: &[u8], set: &[u8; 16]) -> bool
    ensures { result ≡ is_slices set.now packet.now }
{
    if !is_kind(packet, 80, &SLICES) {
        return false;
    }
    is_of(packet, set) && (packet.len() - 80) % 20 == 0
}

/// How many entries an IFSC has.
pub fn entry_count(packet: &[u8]) -> usize
    requires { 80 ≤ length packet.now }
    ensures { result ≡ entry_count packet.now }
{
    (packet.len() - 80) / 20
}

/// The MD5 of each slice that an IFSC tells.
pub fn entries_of(alloc: Global, packet: &[u8]) -> Result<List<[u8; 16]>, Memory>
    requires { 80 ≤ length packet.now }
    ensures { IfOk result (λ entries. entries ≡ entries_of packet.now) }
{
    let count = entry_count(packet);
    let mut entries = List::new(alloc);
    entries.reserve(count)?;
    for i in 0..count {
        entries.push(sixteen_at(packet, 80 + 20 * i))?;
    }
    Ok(entries)
}

/// The ids of a Main, each where it stands first.
pub fn ids_of(alloc: Global, packet: &[u8]) -> Result<IndexSet<[u8; 16]>, Memory>
    requires { 76 ≤ length packet.now }
    ensures { IfOk result (λ ids. ids.keys ≡ ids_of packet.now) }
{
    let count = (packet.len() - 76) / 16;
    let mut ids = IndexSet::new(alloc);
    for i in 0..count {
        ids.insert(sixteen_at(packet, 76 + 16 * i))?;
    }
    Ok(ids)
}

/// The name that a FileDesc tells, without the zeros that fill it.
pub fn name_of(packet: &[u8]) -> &[u8]
    requires { 120 ≤ length packet.now }
    ensures { result.now ≡ name_of packet.now }
{
    without_zeros(&packet[120..])
}

// What stands before the zeros at an end.
fn without_zeros(bytes: &[u8]) -> &[u8]
    ensures { result.now ≡ without_zeros bytes.now }
{
    let mut end = bytes.len();
    while end > 0 {
        if bytes[end - 1] != 0 {
            return &bytes[..end];
        }
        end -= 1;
    }
    &bytes[..0]
}
