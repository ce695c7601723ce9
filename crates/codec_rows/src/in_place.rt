// Texts decoded where they stand, beside the reading of their lines.
use body_text::decode_text;
use lists::bytes_of;
use std::alloc::Global;
use std::test::Fail;
use yenc_body::{BodyError, read_body, split_text};

// Whether a text is decoded where it stands to what its lines are read to: the same part, or the same fault.
fn agree(alloc: Global, text: &[u8]) -> Result<bool, Fail> {
    let lines = split_text(alloc, text)?;
    let wanted = read_body(alloc, &lines);
    let found = decode_text(bytes_of(alloc, text)?);
    Ok(match (found, wanted) {
        (Ok(part), Ok(other)) => {
            part.first == other.first
                && part.last == other.last
                && part.begin.size == other.begin.size
                && part.content.as_slice() == other.content.as_slice()
        }
        (Err(fault), Err(BodyError::Refused(other))) => fault == other,
        _ => false,
    })
}

const WHOLE: &[u8] =
    b"From: x\r\n\r\n=ybegin line=128 size=12 name=d\r\n[\\]^_`abc=}\r\n=J.\r\n=yend size=12 crc32=30a672e8\r\nrest\r\n";

const PART: &[u8] =
    b"=ybegin part=2 total=2 line=128 size=9 name=d\n=ypart begin=6 end=9\n`ab\nc\n=yend size=4 part=2 pcrc32=9dbabf87\n";

// Characters that a text is changed to at one place.
const CHARACTERS: [u8; 8] = [0, 10, 13, 46, 61, 97, 121, 255];

fn fronts_agree(alloc: Global, text: &[u8]) -> Result<bool, Fail> {
    for len in 0..text.len() {
        if !agree(alloc, &text[..len])? {
            return Ok(false);
        }
    }
    agree(alloc, text)
}

fn changes_agree(alloc: Global, text: &[u8], character: u8) -> Result<bool, Fail> {
    let mut changed = bytes_of(alloc, text)?.into_vec();
    for at in 0..changed.len() {
        let before = changed[at];
        changed[at] = character;
        if !agree(alloc, &changed)? {
            return Ok(false);
        }
        changed[at] = before;
    }
    Ok(true)
}

#[test]
fn a_text_in_place_is_read_as_its_lines(rt: HostRuntime) -> Result<(), Fail> {
    let texts: [&[u8]; 2] = [WHOLE, PART];
    for text in texts {
        assert!(rt; fronts_agree(rt.alloc(), text)?);
        for character in CHARACTERS {
            assert!(rt; changes_agree(rt.alloc(), text, character)?);
        }
    }
    Ok(())
}
