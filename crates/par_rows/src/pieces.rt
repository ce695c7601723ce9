// Texts of known pieces.
use crate::texts::{DESC, MAIN, OTHER, SET, SLICES, desc_body, main_body, packet, slices_body};
use lists::{Bytes, Memory, bytes_of};
use std::alloc::Global;

// The ids of two files, and of a set that isn't read.
const D: [u8; 16] = *b"the id of file d";

const E: [u8; 16] = *b"the id of file e";

const OTHER_SET: [u8; 16] = *b"some other set's";

/// A piece of a text. The set has slices of four bytes, and its file `d` the bytes `123456789`.
#[derive(Clone, Copy)]
pub enum Piece {
    /// Ten bytes that are no packet.
    Stray,
    /// The Main.
    Main,
    /// The Main, with one byte of its MD5 changed.
    ChangedMain,
    /// A Main with slices of eight bytes.
    LaterMain,
    /// A Main whose slice size is no multiple of four.
    OddMain,
    /// A Main that says one file more than it has ids.
    ShortMain,
    /// A Main for one file, with the ids of two, each twice.
    LongMain,
    /// The FileDesc of `d`.
    Desc,
    /// A FileDesc of the same id with another name.
    LaterDesc,
    /// A FileDesc of the same id and of another set.
    OtherDesc,
    /// The FileDesc of an empty file, also with the name `d`.
    EmptyDesc,
    /// The IFSC of `d`.
    Slices,
    /// An IFSC of the same id with an entry too many.
    MoreSlices,
    /// An IFSC of the same id with an entry too few.
    FewerSlices,
    /// The IFSC of the empty file.
    EmptySlices,
    /// A packet of another type that has the Main in its body.
    Around,
    /// The front of a header that says this length.
    Header(u64),
}

/// A text of these pieces.
pub fn text_of(alloc: Global, pieces: &[Piece]) -> Result<Bytes, Memory> {
    let mut text = Bytes::new(alloc);
    for piece in pieces {
        let bytes = bytes_of_piece(alloc, *piece)?;
        text.extend(bytes.as_slice())?;
    }
    Ok(text)
}

fn bytes_of_piece(alloc: Global, piece: Piece) -> Result<Bytes, Memory> {
    match piece {
        Piece::Stray => bytes_of(alloc, b"PAR2\0PKPAR"),
        Piece::Header(len) => header_of(alloc, len),
        Piece::Main => main_of(alloc, 4, 1, &[D]),
        Piece::ChangedMain => changed(alloc, main_of(alloc, 4, 1, &[D])?),
        Piece::LaterMain => main_of(alloc, 8, 1, &[E]),
        Piece::OddMain => main_of(alloc, 6, 1, &[E]),
        Piece::ShortMain => main_of(alloc, 8, 2, &[E]),
        Piece::LongMain => main_of(alloc, 4, 1, &[E, D, E, D]),
        Piece::Around => packet(alloc, &SET, &OTHER, main_of(alloc, 4, 1, &[D])?.as_slice()),
        _ => file_piece(alloc, piece),
    }
}

fn file_piece(alloc: Global, piece: Piece) -> Result<Bytes, Memory> {
    match piece {
        Piece::LaterDesc => desc_of(alloc, &SET, &D, b"abcdefghi", b"later\0\0\0"),
        Piece::OtherDesc => desc_of(alloc, &OTHER_SET, &D, b"12", b"other\0\0\0"),
        Piece::EmptyDesc => desc_of(alloc, &SET, &E, b"", b"d\0\0\0"),
        Piece::Slices => slices_of(alloc, &D, b"12345678", b"9\0\0\0"),
        Piece::MoreSlices => slices_of(alloc, &D, b"abcdefghijkl", b"mnop"),
        Piece::FewerSlices => slices_of(alloc, &D, b"abcd", b"efgh"),
        Piece::EmptySlices => slices_of(alloc, &E, b"", b""),
        _ => desc_of(alloc, &SET, &D, b"123456789", b"d\0\0\0"),
    }
}

// The same bytes, with the first one of the MD5 changed.
fn changed(alloc: Global, packet: Bytes) -> Result<Bytes, Memory> {
    let mut text = Bytes::new(alloc);
    for (i, byte) in packet.as_slice().iter().enumerate() {
        text.push(if i == 16 { *byte ^ 1 } else { *byte })?;
    }
    Ok(text)
}

fn header_of(alloc: Global, len: u64) -> Result<Bytes, Memory> {
    let mut text = bytes_of(alloc, b"PAR2\0PKT")?;
    text.extend(&len.to_le_bytes())?;
    Ok(text)
}

fn main_of(alloc: Global, slice: u64, count: u32, ids: &[[u8; 16]]) -> Result<Bytes, Memory> {
    let body = main_body(alloc, slice, count, ids)?;
    packet(alloc, &SET, &MAIN, body.as_slice())
}

fn desc_of(
    alloc: Global,
    set: &[u8; 16],
    id: &[u8; 16],
    content: &[u8],
    name: &[u8],
) -> Result<Bytes, Memory> {
    let body = desc_body(alloc, id, content, name)?;
    packet(alloc, set, &DESC, body.as_slice())
}

fn slices_of(alloc: Global, id: &[u8; 16], front: &[u8], last: &[u8]) -> Result<Bytes, Memory> {
    let body = slices_body(alloc, id, front, last)?;
    packet(alloc, &SET, &SLICES, body.as_slice())
}
