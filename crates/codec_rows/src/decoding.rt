// Data lines, keyword lines and numbers, read.
use numbers::{read_dec, read_hex32};
use std::test::Fail;
use yenc_bytes::{LineFault, decode_line};
use yenc_lines::{EndLine, Key, KeyFault, PartLine, read_begin, read_end, read_part};

#[test]
fn a_data_line_gives_its_bytes(rt: HostRuntime) {
    let mut line = *b"[\\]^_`abc";
    assert_eq!(rt; decode_line(&mut line), Ok(9));
    assert_eq!(rt; line, *b"123456789");
    let mut escaped = *b"===a.=}";
    assert_eq!(rt; decode_line(&mut escaped), Ok(4));
    assert_eq!(rt; &escaped[..4], [211, 247, 4, 0x13].as_slice());
}

#[test]
fn a_line_is_refused_at_its_first_fault(rt: HostRuntime) {
    let mut lone = *b"a=";
    assert_eq!(rt;
        decode_line(&mut lone),
        Err(LineFault::LoneEscape { column: 2 })
    );
    let mut behind_escape = *b"a=\ra";
    assert_eq!(rt;
        decode_line(&mut behind_escape),
        Err(LineFault::Stray {
            column: 3,
            byte: b'\r'
        })
    );
    assert_eq!(rt; &behind_escape[2..], b"\ra".as_slice());
    let mut bare = *b"ab\0=";
    assert_eq!(rt;
        decode_line(&mut bare),
        Err(LineFault::Stray { column: 3, byte: 0 })
    );
    assert_eq!(rt; &bare[2..], b"\0=".as_slice());
}

// Digits and the greatest number that is taken, with what they say.
const NUMBERS: [(&str, u64, Option<u64>); 8] = [
    ("", 9, None),
    ("9", 9, Some(9)),
    ("10", 9, None),
    ("0009", 9, Some(9)),
    ("9x", 99, None),
    ("+9", 99, None),
    ("18446744073709551615", u64::MAX, Some(u64::MAX)),
    ("18446744073709551616", u64::MAX, None),
];

const HEX_NUMBERS: [(&str, Option<u32>); 6] = [
    ("", None),
    ("1", Some(1)),
    ("CBF43926", Some(0xcbf4_3926)),
    ("cbf43926", Some(0xcbf4_3926)),
    ("0cbf43926", None),
    ("g", None),
];

#[test]
fn numbers_are_read_up_to_their_limit(rt: HostRuntime) {
    for (digits, max, value) in NUMBERS {
        assert_eq!(rt; read_dec(digits.as_bytes(), max), value);
    }
    for (digits, value) in HEX_NUMBERS {
        assert_eq!(rt; read_hex32(digits.as_bytes()), value);
    }
}

#[test]
fn header_lines_are_read(rt: HostRuntime) -> Result<(), Fail> {
    let begin = read_begin(
        "=ybegin part=1 total=1 line=128  size=9 x y=3 name= my  file.txt ".as_bytes(),
    ).map_err(|_| "a header line")?;
    assert_eq!(rt; begin.part, Some(1));
    assert_eq!(rt; begin.total, Some(1));
    assert_eq!(rt; begin.line, Some(128));
    assert_eq!(rt; begin.size, 9);
    assert_eq!(rt; begin.name.as_slice(), b"my  file.txt".as_slice());
    Ok(())
}

// Header lines, and the first fault of each.
const BAD_HEADERS: [(&str, KeyFault); 8] = [
    ("=ybeginx", KeyFault::NotIt),
    ("=ybegin line=128 size=9", KeyFault::NoItem(Key::Name)),
    ("=ybegin line=128 name=d", KeyFault::NoItem(Key::Size)),
    ("=ybegin size=9 name=  ", KeyFault::BadName),
    (
        "=ybegin part=0 size=x name=d",
        KeyFault::BadNumber(Key::Part),
    ),
    (
        "=ybegin size=9 size=x name=d",
        KeyFault::Repeated(Key::Size),
    ),
    (
        "=ybegin size=1099511627777 name=d",
        KeyFault::BadNumber(Key::Size),
    ),
    (
        "=ybegin line=4294967296 size=9 name=d",
        KeyFault::BadNumber(Key::Line),
    ),
];

#[test]
fn header_lines_are_refused_for_their_first_fault(rt: HostRuntime) {
    for (line, fault) in BAD_HEADERS {
        assert!(rt; matches!(read_begin(line.as_bytes()), Err(found) if found == fault));
    }
}

// Part lines, and what they say.
const PART_LINES: [(&str, Result<PartLine, KeyFault>); 3] = [
    (
        "=ypart end=18 begin=10",
        Ok(PartLine { begin: 10, end: 18 }),
    ),
    ("=ypart begin=10", Err(KeyFault::NoItem(Key::End))),
    (
        "=ypart begin=0 end=18",
        Err(KeyFault::BadNumber(Key::Begin)),
    ),
];

// Trailer lines, and what they say.
const END_LINES: [(&str, Result<EndLine, KeyFault>); 2] = [
    (
        "=yend size=9 part=1 pcrc32=CBF43926 crc32=1  ",
        Ok(EndLine {
            size: 9,
            part: Some(1),
            pcrc32: Some(0xcbf4_3926),
            crc32: Some(1),
        }),
    ),
    (
        "=yend size=9 crc32=123456789",
        Err(KeyFault::BadNumber(Key::Crc32)),
    ),
];

#[test]
fn part_and_trailer_lines_are_read(rt: HostRuntime) {
    for (line, wanted) in &PART_LINES {
        assert!(rt; read_part(line.as_bytes()) == *wanted, "{line:?}");
    }
    for (line, wanted) in &END_LINES {
        assert!(rt; read_end(line.as_bytes()) == *wanted, "{line:?}");
    }
}
