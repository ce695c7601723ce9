// Landings of runs, with a critical character at each place of one block, two blocks and a rest: of plain characters, beside a plain
// loop, and of escapes among them, beside the spellings read one by one.
use crate::draws::drawn;
use gap_kernel::land_spellings;
use landing_kernel::land;
use std::test::Fail;
use yenc_bytes::read_spelling;

const LEN: usize = 80;

const FROM: usize = 3;

const TO: usize = 1;

// Two blocks, and eight characters behind them.
const MOST: usize = 72;

#[test]
fn lands_what_stands_before_an_escape(rt: HostRuntime) -> Result<(), Fail> {
    let mut buf = [0x2au8; 64];
    buf[40] = 0x3d;
    assert_eq!(rt; land(&mut buf, 5, 3, 64), 35);
    let mut want = [0x2au8; 64];
    for k in 3..38usize {
        want[k] = 0;
    }
    want[40] = 0x3d;
    assert_eq!(rt; buf.as_slice(), want.as_slice());
    Ok(())
}

#[test]
fn lands_nothing_behind_the_end(rt: HostRuntime) -> Result<(), Fail> {
    for end in 5..65usize {
        let mut buf = [0x2au8; 64];
        assert_eq!(rt; land(&mut buf, 5, 5, end), end - 5);
        let mut want = [0x2au8; 64];
        for k in 5..end {
            want[k] = 0;
        }
        assert_eq!(rt; buf.as_slice(), want.as_slice(), "at {end}");
    }
    Ok(())
}

#[test]
fn lands_what_a_plain_loop_does(rt: HostRuntime) -> Result<(), Fail> {
    for critical in [0u8, 10, 13, 61] {
        for place in 0..71usize {
            let mut buf = text();
            buf[FROM + place] = critical;
            let mut want = buf;
            let count = land_plainly(&mut want);
            assert_eq!(rt; count, place);
            assert_eq!(rt; land(&mut buf, FROM, TO, FROM + MOST), count);
            assert_eq!(rt; buf.as_slice(), want.as_slice(), "{critical} at {place}");
        }
    }
    Ok(())
}

#[test]
fn takes_an_escape_at_each_place(rt: HostRuntime) -> Result<(), Fail> {
    for place in 0..MOST {
        let mut text = text();
        text[FROM + place] = b'=';
        // an escape that isn't whole in its block, or behind the blocks, is left
        let stays = place % 32 == 31 || place >= 64;
        let wanted = if stays { place } else { MOST };
        assert_eq!(rt; landed(&text), Some(wanted), "at {place}");
    }
    Ok(())
}

#[test]
fn stops_at_two_escapes_in_a_block(rt: HostRuntime) -> Result<(), Fail> {
    for first in 0..31usize {
        for second in first + 1..32 {
            let mut text = text();
            text[FROM + first] = b'=';
            text[FROM + second] = b'=';
            assert_eq!(rt; landed(&text), Some(first), "at {first} and {second}");
        }
    }
    Ok(())
}

#[test]
fn stops_at_what_no_line_holds(rt: HostRuntime) -> Result<(), Fail> {
    for stray in [0, b'\n', b'\r'] {
        for place in 1..MOST {
            let mut text = text();
            text[FROM + place] = stray;
            assert_eq!(rt; landed(&text), Some(place), "{stray} at {place}");
            text[FROM] = b'=';
            let wanted = if place < 32 { 0 } else { place };
            assert_eq!(rt;
                landed(&text),
                Some(wanted),
                "{stray} at {place} behind an escape"
            );
        }
    }
    Ok(())
}

#[test]
fn lands_what_the_spellings_say(rt: HostRuntime) -> Result<(), Fail> {
    let mut random = 20_261_202;
    for round in 0..400u32 {
        let mut text = text();
        for k in 0..LEN {
            match drawn(&mut random) % 48 {
                0 => text[k] = b'=',
                1 => text[k] = b'.',
                2 => text[k] = if k < 40 { b'=' } else { b'\r' },
                _ => {}
            }
        }
        assert!(rt; landed(&text).is_some(), "in round {round}");
    }
    Ok(())
}

// Characters of which none is critical, no two the same.
fn text() -> [u8; 80] {
    let mut text = [0; LEN];
    for k in 0..LEN {
        text[k] = 100 + k as u8;
    }
    text
}

fn land_plainly(buf: &mut [u8; 80]) -> usize {
    for k in 0..MOST {
        let character = buf[FROM + k];
        if character == 0 || character == 10 || character == 13 || character == 61 {
            return k;
        }
        buf[TO + k] = character.wrapping_sub(42);
    }
    MOST
}

// How many characters are used of a text, where the bytes are those that these spell, and nothing else changes.
fn landed(text: &[u8; 80]) -> Option<usize> {
    let mut buf = *text;
    let run = land_spellings(&mut buf, FROM, TO, FROM + MOST);
    let mut wanted = *text;
    let count = read_all(&mut wanted, FROM + run.used)?;
    let same = count == run.landed
        && buf[..TO + run.landed] == wanted[..TO + run.landed]
        && buf[FROM + run.used..] == text[FROM + run.used..];
    same.then_some(run.used)
}

// Reads the spellings before an index one by one, puts their bytes to their place, and answers how many there are.
fn read_all(text: &mut [u8; 80], end: usize) -> Option<usize> {
    let end = end.min(LEN);
    let mut from = FROM;
    for to in TO..LEN {
        if from >= end {
            return Some(to - TO);
        }
        let (byte, width) = read_spelling(&text[..end], from).ok()?;
        text[to] = byte;
        from += width;
    }
    None
}
