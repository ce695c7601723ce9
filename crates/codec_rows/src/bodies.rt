// Bodies of parts, and the lines of a saved text.
use lists::Lines;
use row_fixtures::are_lines;
use std::test::Fail;
use yenc_body::{BodySpec, split_text, write_body};
use yenc_lines::Name;

// The lines of a middle part, behind another line, and those of a last one, with bars between them.
const MIDDLE: &str =
    "before|=ybegin part=2 total=3 line=128 size=27 name=t|=ypart begin=10 end=18|[\\]^_`abc|=yend size=9 part=2 pcrc32=cbf43926";

const LAST: &str =
    "=ybegin part=2 total=2 line=128 size=9 name=d|=ypart begin=9 end=9|c|=yend size=1 part=2 pcrc32=8d076785";

#[test]
fn a_part_of_several_has_its_place(rt: HostRuntime) -> Result<(), Fail> {
    let middle = BodySpec {
        name: Name::new(b"t").ok_or("a name")?,
        part: 2,
        total: 3,
        first: 10,
        size: 27,
        line: 128,
    };
    let mut lines = Lines::new(rt.alloc());
    lines.push(b"before")?;
    write_body(&middle, b"123456789", &mut lines)?;
    assert!(rt; are_lines(&lines, MIDDLE));
    let last = BodySpec {
        name: Name::new(b"d").ok_or("a name")?,
        part: 2,
        total: 2,
        first: 9,
        size: 9,
        line: 128,
    };
    lines.clear();
    write_body(&last, b"9", &mut lines)?;
    assert!(rt; are_lines(&lines, LAST));
    Ok(())
}

#[test]
fn a_whole_file_has_the_single_form(rt: HostRuntime) -> Result<(), Fail> {
    let mut bytes = [0; 64];
    bytes[63] = 0xdf;
    let spec = BodySpec {
        name: Name::new(b"my file.bin").ok_or("a name")?,
        part: 1,
        total: 1,
        first: 1,
        size: 64,
        line: 64,
    };
    let mut lines = Lines::new(rt.alloc());
    write_body(&spec, &bytes, &mut lines)?;
    let mut data = [b'*'; 65];
    data[63] = b'=';
    data[64] = b'I';
    assert_eq!(rt; lines.len(), 3);
    assert_eq!(rt;
        lines.line(0),
        b"=ybegin line=64 size=64 name=my file.bin".as_slice()
    );
    assert_eq!(rt; lines.line(1), data.as_slice());
    Ok(())
}

// Texts, and their lines with bars between them.
const TEXTS: [(&str, &str); 7] = [
    ("a", "a"),
    ("a\n", "a"),
    ("a\r\nb\nc\r", "a|b|c\r"),
    ("\n\r\n", "|"),
    ("a\r\r\n", "a\r"),
    ("a\rb\n\n", "a\rb|"),
    ("\r", "\r"),
];

#[test]
fn a_text_is_cut_at_each_lf(rt: HostRuntime) -> Result<(), Fail> {
    assert!(rt; split_text(rt.alloc(), b"")?.is_empty());
    for (text, wanted) in TEXTS {
        let lines = split_text(rt.alloc(), text.as_bytes())?;
        assert!(rt; are_lines(&lines, wanted), "{text:?}");
    }
    Ok(())
}
