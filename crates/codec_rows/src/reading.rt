// Bodies, read.
use lists::Lines;
use row_fixtures::bytes_of;
use std::alloc::Global;
use std::test::Fail;
use yenc_body::{BodyError, Fault, Reason, read_body, split_text};
use yenc_lines::{Key, KeyFault};

// The error that the lines of a text are refused with, where they are.
fn refusal(alloc: Global, text: &str) -> Result<Option<BodyError>, Fail> {
    let lines = split_text(alloc, text.as_bytes())?;
    Ok(read_body(alloc, &lines).err())
}

fn at(line: u64, column: u64, reason: Reason) -> Option<BodyError> {
    Some(BodyError::Refused(Fault {
        line,
        column,
        reason,
    }))
}

// Texts that are refused, with the line, the column and the reason.
const REFUSED: [(&str, u64, u64, Reason); 19] = [
    ("", 1, 1, Reason::NoBegin),
    ("From: x\n\n", 3, 1, Reason::NoBegin),
    (
        "=ybegin line=128 size=9\n[\\]^_`abc\n=yend size=9 crc32=cbf43926\n",
        1,
        1,
        Reason::BadBegin(KeyFault::NoItem(Key::Name)),
    ),
    (
        "=ybegin line=128 size=16777217 name=d\n",
        1,
        1,
        Reason::PartRange,
    ),
    (
        "=ybegin part=1 total=2 line=128 size=9 name=d\n=ypart begin=1 end=10\n",
        2,
        1,
        Reason::PartRange,
    ),
    (
        "=ybegin part=1 total=2 line=128 size=9 name=d\nabc\n",
        2,
        1,
        Reason::NoPart,
    ),
    (
        "=ybegin part=1 total=2 line=128 size=9 name=d\n",
        2,
        1,
        Reason::NoPart,
    ),
    (
        "=ybegin part=1 total=2 line=128 size=9 name=d\n=ypart begin=0 end=9\n",
        2,
        1,
        Reason::BadPart(KeyFault::BadNumber(Key::Begin)),
    ),
    (
        "=ybegin line=128 size=2 name=d\na=\ra\n=yend size=2\n",
        2,
        3,
        Reason::Stray,
    ),
    (
        "=ybegin line=128 size=2 name=d\nab\n\0\n=yend size=2\n",
        3,
        1,
        Reason::Stray,
    ),
    (
        "=ybegin line=128 size=2 name=d\na=\n=yend size=2\n",
        2,
        2,
        Reason::LoneEscape,
    ),
    (
        "=ybegin line=128 size=8 name=d\n[\\]^_`abc\n=yend size=8\n",
        2,
        9,
        Reason::TooMany,
    ),
    (
        "=ybegin line=128 size=8 name=d\n[\n=yfoo\n",
        3,
        1,
        Reason::Keyword,
    ),
    (
        "=ybegin line=128 size=9 name=d\n[\\]^_`abc\n",
        3,
        1,
        Reason::NoEnd,
    ),
    (
        "=ybegin line=128 size=9 name=d\n[\\]^_`abc\n=yend crc32=cbf43926\n",
        3,
        1,
        Reason::BadEnd(KeyFault::NoItem(Key::Size)),
    ),
    (
        "=ybegin part=1 total=1 line=128 size=9 name=d\n=ypart begin=1 end=9\n[\\]^_`abc\n=yend size=9 part=2\n",
        4,
        1,
        Reason::EndPart(2, 1),
    ),
    (
        "=ybegin line=128 size=9 name=d\n[\\]^_`abc\n=yend size=8\n",
        3,
        1,
        Reason::EndSize(8, 9),
    ),
    (
        "=ybegin line=128 size=10 name=d\n[\\]^_`abc\n=yend size=10\n",
        3,
        1,
        Reason::TooFew(9, 10),
    ),
    (
        "=ybegin line=128 size=9 name=d\n[\\]^_`abc\n=yend size=9 crc32=1\n",
        3,
        1,
        Reason::CrcDiffers(1, 0xcbf4_3926),
    ),
];

#[test]
fn each_reason_has_its_line_and_column(rt: HostRuntime) -> Result<(), Fail> {
    for (text, line, column, reason) in REFUSED {
        assert_eq!(rt; refusal(rt.alloc(), text)?, at(line, column, reason));
    }
    Ok(())
}

// The lines before the end line of a part with all its bytes, and of one without the last.
const FULL: &str =
    "=ybegin part=1 total=2 line=128 size=18 name=d\n=ypart begin=1 end=9\n[\\]^_`abc\n";

const SHORT: &str =
    "=ybegin part=1 total=2 line=128 size=18 name=d\n=ypart begin=1 end=9\n[\\]^_`ab\n";

// End lines, and the reason that is told of them.
const ENDS: [(&str, &str, Reason); 8] = [
    (FULL, "=yend size=8 part=2", Reason::EndPart(2, 1)),
    (SHORT, "=yend size=9 part=2", Reason::EndPart(2, 1)),
    (FULL, "=yend size=9 part=2 pcrc32=1", Reason::EndPart(2, 1)),
    (SHORT, "=yend size=8 part=1", Reason::EndSize(8, 9)),
    (FULL, "=yend size=8 part=1 pcrc32=1", Reason::EndSize(8, 9)),
    (SHORT, "=yend size=9 part=1 pcrc32=1", Reason::TooFew(8, 9)),
    (
        FULL,
        "=yend size=9 part=1 pcrc32=1 crc32=2",
        Reason::CrcDiffers(1, 0xcbf4_3926),
    ),
    (
        FULL,
        "=yend size=9 size=9 part=2",
        Reason::BadEnd(KeyFault::Repeated(Key::Size)),
    ),
];

#[test]
fn the_first_reason_of_two_on_one_place_is_told(rt: HostRuntime) -> Result<(), Fail> {
    for (lines, end, reason) in ENDS {
        let text = format!(in rt.alloc(); "{lines}{end}")?;
        assert_eq!(rt; refusal(rt.alloc(), text.as_str())?, at(4, 1, reason));
    }
    Ok(())
}

#[test]
fn a_keyword_line_may_have_1024_bytes(rt: HostRuntime) -> Result<(), Fail> {
    let alloc = rt.alloc();
    let mut end = bytes_of(alloc, b"=yend size=0")?;
    for _ in 0..1012u32 {
        end.push(b' ')?;
    }
    let mut lines = Lines::new(alloc);
    lines.push(b"=ybegin line=128 size=0 name=e")?;
    lines.push(end.as_slice())?;
    assert!(rt; read_body(alloc, &lines).is_ok());
    end.push(b' ')?;
    lines.truncate(1);
    lines.push(end.as_slice())?;
    assert_eq!(rt;
        read_body(alloc, &lines).err(),
        at(2, 1025, Reason::KeywordTooLong)
    );
    // Among the data lines it is another keyword that is told, at its first column.
    lines.truncate(1);
    let mut begin = bytes_of(alloc, b"=ybegin size=0 name=e")?;
    for _ in 0..1004u32 {
        begin.push(b' ')?;
    }
    lines.push(begin.as_slice())?;
    assert_eq!(rt; read_body(alloc, &lines).err(), at(2, 1, Reason::Keyword));
    Ok(())
}

const SAVED: &str =
    "From: x\n\n=ybegin part=1 total=1 line=128 size=9 name=my file.txt\n=ypart begin=1 end=9\n[\\]^_`abc\n=yend size=9 part=1 pcrc32=CBF43926 crc32=00000000\n-- \nsigned\n";

#[test]
fn a_saved_article_is_read(rt: HostRuntime) -> Result<(), Fail> {
    let lines = split_text(rt.alloc(), SAVED.as_bytes())?;
    let part = read_body(rt.alloc(), &lines).ok().ok_or("a body")?;
    assert!(rt; part.content.as_slice() == b"123456789".as_slice());
    assert!(rt; part.begin.name.as_slice() == b"my file.txt".as_slice());
    assert_eq!(rt; (part.first, part.last, part.begin.size), (1, 9, 9));
    Ok(())
}
