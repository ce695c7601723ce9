// A block that is decoded in pieces.
use fused_decoder::{Ending, Event, Fused};
use lists::Bytes;
use std::alloc::Global;
use std::test::Fail;

/// What came of a block.
#[derive(Drop)]
pub(crate) struct Decoded {
    /// The bytes that were handed out.
    pub(crate) out: Bytes,
    /// The size, and the offsets of the first and the last byte.
    pub(crate) range: Option<(u64, u64, u64)>,
    /// How it ended.
    pub(crate) ending: Option<Ending>,
}

impl Decoded {
    fn new(alloc: Global) -> Self {
        Decoded {
            out: Bytes::new(alloc),
            range: None,
            ending: None,
        }
    }
}

/// What is done where the range is known.
#[derive(Clone, Copy, Debug, PartialEq, Eq)]
pub(crate) enum Reply {
    GoOn,
    TurnAway,
}

// Hands in one piece, of at most 2048 bytes.
fn feed(fused: &mut Fused, reply: Reply, piece: &[u8], decoded: &mut Decoded) -> Result<(), Fail> {
    if piece.len() > 2048 {
        return Err(Fail::from("a short piece"));
    }
    let mut buffer = [0; 2048];
    buffer[..piece.len()].copy_from_slice(piece);
    let mut at = 0;
    while at < piece.len() {
        let step = fused.step(&mut buffer[at..piece.len()]);
        decoded.out.extend(&buffer[at..at + step.wrote])?;
        at += step.used;
        match step.event {
            Event::More => {}
            Event::Range { size, first, last } => {
                decoded.range = Some((size, first, last));
                match reply {
                    Reply::GoOn => fused.go_on(),
                    Reply::TurnAway => fused.turn_away(),
                }
            }
            Event::End(ending) => {
                decoded.ending = Some(ending);
                return Ok(());
            }
        }
    }
    Ok(())
}

/// Decodes a block that comes in two pieces.
pub(crate) fn in_two(
    alloc: Global,
    reply: Reply,
    front: &[u8],
    back: &[u8],
) -> Result<Decoded, Fail> {
    let mut fused = Fused::start();
    let mut decoded = Decoded::new(alloc);
    feed(&mut fused, reply, front, &mut decoded)?;
    if decoded.ending.is_none() {
        feed(&mut fused, reply, back, &mut decoded)?;
    }
    Ok(decoded)
}

/// Decodes a block that comes byte by byte.
pub(crate) fn by_bytes(alloc: Global, reply: Reply, block: &[u8]) -> Result<Decoded, Fail> {
    let mut fused = Fused::start();
    let mut decoded = Decoded::new(alloc);
    for byte in block {
        if decoded.ending.is_none() {
            feed(&mut fused, reply, &[*byte], &mut decoded)?;
        }
    }
    Ok(decoded)
}
