// Blocks with long data lines, decoded at once and byte by byte.
use crate::block_fixtures::{Reply, by_bytes, in_two};
use crate::draws::drawn;
use lists::Bytes;
use std::alloc::Global;
use std::test::Fail;

// How many characters stand between the header and the trailer line.
const LEN: usize = 400;

// Whether a text gives the same at once and byte by byte: the bytes, and how it ends.
fn gives_the_same(alloc: Global, text: &[u8; 400]) -> Result<bool, Fail> {
    let mut block = Bytes::new(alloc);
    block.extend(b"=ybegin line=128 size=370 name=d\r\n")?;
    block.extend(text)?;
    block.extend(b"\r\n=yend size=370\r\n.\r\n")?;
    let block = block.as_slice();
    let whole = in_two(alloc, Reply::GoOn, block, b"")?;
    let bytes = by_bytes(alloc, Reply::GoOn, block)?;
    Ok(whole.out.as_slice() == bytes.out.as_slice() && whole.ending == bytes.ending)
}

// A line of characters of which none is critical.
fn line() -> [u8; 400] {
    let mut text = [0; LEN];
    for k in 0..LEN {
        text[k] = 100 + (k % 100) as u8;
    }
    text
}

#[test]
fn an_escape_stands_at_any_place(rt: HostRuntime) -> Result<(), Fail> {
    for place in 0..40usize {
        let mut text = line();
        text[place] = b'=';
        text[place + 70] = b'=';
        text[place + 72] = b'\r';
        text[place + 73] = b'\n';
        text[place + 74] = b'.';
        text[place + 75] = b'=';
        assert!(rt; gives_the_same(rt.alloc(), &text)?, "at {place}");
    }
    Ok(())
}

// One character of a text, behind another: one in 20 is an escape, and one in 40 a line's end.
fn character(before: u8, random: &mut u32) -> u8 {
    let number = drawn(random) % 80;
    if before == b'\r' && number != 0 {
        return b'\n';
    }
    match number {
        0..=3 => b'=',
        4..=5 => b'\r',
        6 => b'y',
        7..=12 => b'.',
        _ => 20 + number as u8,
    }
}

#[test]
fn drawn_lines_give_the_same(rt: HostRuntime) -> Result<(), Fail> {
    let mut random = 20_261_202;
    for round in 0..30u32 {
        let mut text = line();
        let mut before = b'\n';
        for k in 0..LEN {
            before = character(before, &mut random);
            text[k] = before;
        }
        assert!(rt; gives_the_same(rt.alloc(), &text)?, "in round {round}");
    }
    Ok(())
}
