// PAR 2.0 texts, packet by packet.
use lists::{Bytes, Memory, bytes_of};
use md5::{Digest, Md5};
use std::alloc::Global;

/// The id of the set.
pub const SET: [u8; 16] = *b"the set's own id";

/// The types of packets.
pub const MAIN: [u8; 16] = *b"PAR 2.0\0Main\0\0\0\0";

pub const DESC: [u8; 16] = *b"PAR 2.0\0FileDesc";

pub const SLICES: [u8; 16] = *b"PAR 2.0\0IFSC\0\0\0\0";

pub const OTHER: [u8; 16] = *b"PAR 2.0\0Creator\0";

/// A packet of a set, of this type.
pub fn packet(
    alloc: Global,
    set: &[u8; 16],
    kind: &[u8; 16],
    body: &[u8],
) -> Result<Bytes, Memory> {
    let mut said = bytes_of(alloc, set)?;
    said.extend(kind)?;
    said.extend(body)?;
    let len = (said.len() as u64).wrapping_add(32);
    let mut text = bytes_of(alloc, b"PAR2\0PKT")?;
    text.extend(&len.to_le_bytes())?;
    text.extend(&Md5::digest(said.as_slice()))?;
    text.extend(said.as_slice())?;
    Ok(text)
}

/// The body of a Main: a slice size, how many files there are, and ids.
pub fn main_body(alloc: Global, slice: u64, count: u32, ids: &[[u8; 16]]) -> Result<Bytes, Memory> {
    let mut body = bytes_of(alloc, &slice.to_le_bytes())?;
    body.extend(&count.to_le_bytes())?;
    for id in ids {
        body.extend(id)?;
    }
    Ok(body)
}

/// The body of the FileDesc of a file with these bytes and a name that zeros fill.
pub fn desc_body(
    alloc: Global,
    id: &[u8; 16],
    content: &[u8],
    name: &[u8],
) -> Result<Bytes, Memory> {
    let mut body = bytes_of(alloc, id)?;
    body.extend(&Md5::digest(content))?;
    body.extend(&[0; 16])?;
    body.extend(&(content.len() as u64).to_le_bytes())?;
    body.extend(name)?;
    Ok(body)
}

/// The body of an IFSC with the MD5 of each four bytes of these, one behind the other.
pub fn slices_body(
    alloc: Global,
    id: &[u8; 16],
    front: &[u8],
    last: &[u8],
) -> Result<Bytes, Memory> {
    let mut body = bytes_of(alloc, id)?;
    put_entries(front, &mut body)?;
    put_entries(last, &mut body)?;
    Ok(body)
}

fn put_entries(bytes: &[u8], body: &mut Bytes) -> Result<(), Memory> {
    for slice in bytes.chunks(4) {
        body.extend(&Md5::digest(slice))?;
        body.extend(&[0; 4])?;
    }
    Ok(())
}
