// Spellings, data lines, keyword lines and the CRC, by outside vectors.
use crc_field::{Crc, write_hex};
use lists::Lines;
use std::test::Fail;
use yenc_bytes::{encode_lines, spell};
use yenc_lines::{Begin, EndLine, Name, write_begin, write_end};

// Bytes, whether each is spelled as a pair where it needn't be, and how it is spelled.
const SPELLINGS: [(u8, bool, &str); 7] = [
    (b'1', false, "["),
    (0xd6, false, "=@"),
    (0xe0, true, "=J"),
    (0x13, false, "=}"),
    (0xf6, false, " "),
    (0xf6, true, "=`"),
    (0xdf, true, "=I"),
];

#[test]
fn bytes_are_spelled_as_the_place_asks(rt: HostRuntime) {
    for (byte, force, text) in SPELLINGS {
        let spelling = spell(byte, force);
        let spelled = &spelling.bytes[..usize::from(spelling.len)];
        assert!(rt; spelled == text.as_bytes(), "at {byte}");
    }
}

#[test]
fn a_pair_in_the_last_column_is_not_split(rt: HostRuntime) -> Result<(), Fail> {
    let mut bytes = [0; 64];
    bytes[63] = 0xdf;
    let mut lines = Lines::new(rt.alloc());
    encode_lines(&bytes, 64, &mut lines)?;
    assert_eq!(rt; lines.len(), 1);
    let mut line = [b'*'; 65];
    line[63] = b'=';
    line[64] = b'I';
    assert_eq!(rt; lines.line(0), line.as_slice());
    Ok(())
}

#[test]
fn lines_are_full_but_for_the_last(rt: HostRuntime) -> Result<(), Fail> {
    let mut lines = Lines::new(rt.alloc());
    encode_lines(&[0; 65], 64, &mut lines)?;
    assert_eq!(rt; lines.len(), 2);
    assert_eq!(rt; lines.line(0), [b'*'; 64].as_slice());
    assert_eq!(rt; lines.line(1), b"*".as_slice());
    Ok(())
}

#[test]
fn keyword_lines_have_their_items_in_order(rt: HostRuntime) -> Result<(), Fail> {
    let mut line = [0; 1024];
    let name = Name::new(b"t").ok_or("a name")?;
    let begin = Begin {
        part: Some(2),
        total: Some(3),
        line: Some(128),
        size: 27,
        name,
    };
    let len = write_begin(&begin, &mut line);
    assert!(rt; len <= 1024);
    assert_eq!(rt;
        &line[..len],
        b"=ybegin part=2 total=3 line=128 size=27 name=t".as_slice()
    );
    let end = EndLine {
        size: 9,
        part: Some(2),
        pcrc32: Some(0xcbf4_3926),
        crc32: None,
    };
    let len = write_end(&end, &mut line);
    assert!(rt; len <= 1024);
    assert_eq!(rt;
        &line[..len],
        b"=yend size=9 part=2 pcrc32=cbf43926".as_slice()
    );
    Ok(())
}

#[test]
fn names_keep_to_their_rule(rt: HostRuntime) {
    assert!(rt; Name::new(b"a b").is_some());
    assert!(rt; Name::new(&[b'a'; 256]).is_none());
    for name in "| a|a |a\rb|a\nb|a\0b".split('|') {
        assert!(rt; Name::new(name.as_bytes()).is_none(), "{name:?}");
    }
}

#[test]
fn the_crc_is_that_of_all_pieces(rt: HostRuntime) {
    let mut crc = Crc::new();
    assert_eq!(rt; crc.value(), 0);
    crc.update(b"12345");
    crc.update(b"");
    crc.update(b"6789");
    assert_eq!(rt; crc.value(), 0xcbf4_3926);
    assert_eq!(rt; write_hex(0x0bf4_39ef), *b"0bf439ef");
}
