// NZB texts, read and written.
use lists::Bytes;
use nzb_index::{Index, NzbError, NzbLimit, NzbReason, read_nzb, write_nzb};
use row_fixtures::{bytes_of, repeated};
use std::process::Abort;

const EXAMPLE: &[u8] = b"<?xml version=\"1.0\" encoding=\"iso-8859-1\" ?>\n\
<!DOCTYPE nzb PUBLIC \"-//newzBin//DTD NZB 1.1//EN\" \"http://www.newzbin.com/DTD/nzb/nzb-1.1.dtd\">\n\
<nzb xmlns=\"http://www.newzbin.com/DTD/2003/nzb\">\n <head><meta type=\"category\">Test</meta></head>\n \
<file poster=\"A &lt;a@example.org&gt;\" date=\"1071674882\" subject=\"&quot;x.bin&quot; yEnc (1/2)\">\n  \
<groups><group>alt.binaries.test</group></groups>\n  <segments>\n   \
<segment bytes=\"102394\" number=\"1\">123@news.example.org</segment>\n   \
<segment bytes=\"4501\" number=\"2\">987@news.example.org</segment>\n  </segments>\n </file>\n</nzb>\n";

const CANONICAL: &[u8] = b"<?xml version=\"1.0\" encoding=\"UTF-8\"?>\n\
<!DOCTYPE nzb PUBLIC \"-//newzBin//DTD NZB 1.1//EN\" \"http://www.newzbin.com/DTD/nzb/nzb-1.1.dtd\">\n\
<nzb xmlns=\"http://www.newzbin.com/DTD/2003/nzb\">\n<head>\n<meta type=\"category\">Test</meta>\n</head>\n\
<file poster=\"A &lt;a@example.org&gt;\" date=\"1071674882\" subject=\"&quot;x.bin&quot; yEnc (1/2)\">\n\
<groups>\n<group>alt.binaries.test</group>\n</groups>\n<segments>\n\
<segment bytes=\"102394\" number=\"1\">123@news.example.org</segment>\n\
<segment bytes=\"4501\" number=\"2\">987@news.example.org</segment>\n</segments>\n</file>\n</nzb>\n";

// What a text is read as.
fn read<R: Abort + AllocGlobal>(rt: &R, text: &[u8]) -> Index {
    match read_nzb(rt.alloc(), text) {
        Ok(index) => index,
        Err(_) => rt.panic("the text is read"),
    }
}

// Asserts that a text is refused so.
fn refuses<R: Abort + AllocGlobal>(rt: &R, text: &[u8], wanted: NzbError) {
    match read_nzb(rt.alloc(), text) {
        Ok(_) => rt.panic("the text is refused"),
        Err(error) => assert!(rt; error == wanted, "{wanted:?}"),
    }
}

// Asserts that an index is written so, behind what stands there.
fn writes<R: Abort + AllocGlobal>(rt: &R, index: Index, front: &[u8], wanted: &[u8]) {
    let mut text = bytes_of(rt.alloc(), front).expect(rt, "a front");
    write_nzb(&index, &mut text).expect(rt, "a text");
    let text = text.as_slice();
    assert!(rt; text.starts_with(front) && text.ends_with(wanted));
    assert!(rt; text.len() == wanted.len() + front.len());
}

// Asserts how many metas an index has, and how many segments its only file has.
fn counts<R: Abort>(rt: &R, index: Index, metas: usize, segments: usize) -> Index {
    assert!(rt; index.metas.len() == metas);
    match index.files.as_slice() {
        [file] => assert!(rt; file.segments.len() == segments),
        _ => rt.panic("one file"),
    }
    index
}

// What a file says of itself.
#[derive(Clone, Copy)]
struct Said<'a> {
    poster: &'a [u8],
    date: u64,
    subject: &'a [u8],
    group: &'a [u8],
}

// Asserts what the only file says of itself, where it has one group.
fn says<R: Abort>(rt: &R, index: Index, wanted: Said<'_>) -> Index {
    match index.files.as_slice() {
        [file] => {
            assert!(rt; file.poster.as_slice() == wanted.poster);
            assert!(rt; file.date == wanted.date);
            assert!(rt; file.subject.as_slice() == wanted.subject);
            match file.groups.as_slice() {
                [group] => assert!(rt; group.as_slice() == wanted.group),
                _ => rt.panic("one group"),
            }
        }
        _ => rt.panic("one file"),
    }
    index
}

// Asserts the numbers, the octets and the last message-id of two segments.
fn has_two<R: Abort>(rt: &R, index: Index, wanted: [(u32, u64); 2], last: &[u8]) {
    let [first, second] = wanted;
    match index.files.as_slice() {
        [file] => match file.segments.as_slice() {
            [one, other] => {
                assert!(rt; one.number == first.0 && one.bytes == first.1);
                assert!(rt; other.number == second.0 && other.bytes == second.1);
                assert!(rt; other.id.as_slice() == last);
            }
            _ => rt.panic("two segments"),
        },
        _ => rt.panic("one file"),
    }
}

#[test]
fn the_example_is_read(rt: HostRuntime) {
    let said = Said {
        poster: b"A <a@example.org>",
        date: 1_071_674_882,
        subject: b"\"x.bin\" yEnc (1/2)",
        group: b"alt.binaries.test",
    };
    let index = counts(&rt, read(&rt, EXAMPLE), 1, 2);
    let index = says(&rt, index, said);
    let segments = [(1, 102_394), (2, 4_501)];
    has_two(&rt, index, segments, b"987@news.example.org");
}

#[test]
fn the_example_is_written_canonically(rt: HostRuntime) {
    writes(&rt, read(&rt, EXAMPLE), b"", CANONICAL);
    writes(&rt, read(&rt, CANONICAL), b"before\n", CANONICAL);
}

// Texts that are refused, with the place and the reason.
const REFUSED: [(&[u8], usize, NzbReason); 41] = [
    (b"", 0, NzbReason::Ended),
    (b"\xEF\xBB", 2, NzbReason::Ended),
    (b"<?xm", 4, NzbReason::Ended),
    (b"<!-- -", 6, NzbReason::Ended),
    (b"<nzb>", 5, NzbReason::Ended),
    (b"<nzb><fz", 8, NzbReason::Ended),
    (b"<nzb a='&#99999999", 18, NzbReason::Ended),
    (b"<nzb></nzb><", 12, NzbReason::Ended),
    (b"<nzb></nzb><!-", 14, NzbReason::Ended),
    (b"x", 0, NzbReason::Unexpected),
    (b"\xEFx", 1, NzbReason::Unexpected),
    (b"<?xmly", 5, NzbReason::Unexpected),
    (b"<!DOCTYPEx", 9, NzbReason::Unexpected),
    (b"<!-- \0 --><nzb/>", 5, NzbReason::Unexpected),
    (b"<nzb a=1>", 7, NzbReason::Unexpected),
    (b"<nzb a='<'>", 8, NzbReason::Unexpected),
    (b"<nzb a='\x01'>", 8, NzbReason::Unexpected),
    (b"<nzb a='1'b='2'>", 10, NzbReason::Unexpected),
    (b"<nzb/ >", 5, NzbReason::Unexpected),
    (b"<nzb>x", 5, NzbReason::Unexpected),
    (b"<nzb></nzb x", 11, NzbReason::Unexpected),
    (b"<nzb/>x", 6, NzbReason::Unexpected),
    (b"<nzb/><x", 7, NzbReason::Unexpected),
    (b"<nzb a='&am'", 8, NzbReason::BadReference),
    (b"<nzb a='&#;'", 8, NzbReason::BadReference),
    (b"<nzb a='&#x110000;'", 8, NzbReason::BadReference),
    (b"<nzb a='&\x01;'", 8, NzbReason::BadReference),
    (b"<nzb><file></nzb>", 11, NzbReason::WrongTag),
    (b"<nzb><fz\x01", 5, NzbReason::WrongTag),
    (b"<xml/>", 0, NzbReason::WrongTag),
    (b"<nzb><head><meta>a<b>", 18, NzbReason::WrongTag),
    (b"<nzb a='1' b=\"2\" a='3'>", 17, NzbReason::DoubleAttribute),
    (
        b"<nzb><file><segments><segment bytes=\"1\">a</segment></segments></file></nzb>",
        21,
        NzbReason::NoNumber,
    ),
    (b"<nzb><file><segments><segment/>", 21, NzbReason::NoNumber),
    (
        b"<nzb><file><segments><segment number='0'>",
        30,
        NzbReason::BadNumber,
    ),
    (
        b"<nzb><file><segments><segment number='4294967296'>",
        30,
        NzbReason::BadNumber,
    ),
    (
        b"<nzb><file date='1000000000000'>",
        11,
        NzbReason::BadNumber,
    ),
    (b"<nzb><file date=''>", 11, NzbReason::BadNumber),
    (
        b"<nzb><file><segments><segment number='1'>a b</segment >",
        21,
        NzbReason::BadId,
    ),
    (
        b"<nzb><file><segments><segment number='1'/>",
        21,
        NzbReason::BadId,
    ),
    (b"<!DOCTYPE nzb [", 14, NzbReason::Subset),
];

#[test]
fn each_reason_has_its_place(rt: HostRuntime) {
    for (text, place, reason) in REFUSED {
        refuses(&rt, text, NzbError::Refused { place, reason });
    }
}

#[test]
fn references_white_and_comments_are_read(rt: HostRuntime) {
    let text =
        b"\xEF\xBB\xBF<nzb ><!-- < --><file subject='a\r\nb\tc&#10;d&#x20AC;' date='007'><groups><group>\n \
        a<!-- x -->.b &amp;\n</group></groups></file></nzb>\n";
    let said = Said {
        poster: b"",
        date: 7,
        subject: "a b c\nd\u{20AC}".as_bytes(),
        group: b"a.b &",
    };
    let _index = says(&rt, read(&rt, text), said);
}

// Texts as indexers and posters write them: another document type, comments outside the root and in it, metas of several
// types, white before ends, empty elements, and attributes in another order. With each, how many metas it has, and how many
// segments its file has.
const OF_OTHERS: [(&[u8], usize, usize); 4] = [
    (
        b"<?xml version=\"1.0\" encoding=\"iso-8859-1\" ?>\n<!DOCTYPE nzb PUBLIC \"-//newzBin//DTD NZB 1.0//EN\" \
              \"http://www.nzbindex.nl/nzb-1.0.dtd\">\n<!-- NZB Generated by an index -->\n\
              <nzb xmlns=\"http://www.newzbin.com/DTD/2003/nzb\">\n\n<file poster=\"p\xe9 &lt;p@x&gt;\" date=\"1334663333\" \
              subject=\"[1/2] &quot;a.rar&quot; yEnc (1/1)\">\n<groups>\n<group>alt.binaries.a</group>\n<group>alt.binaries.b</group>\n\
              </groups>\n<segments>\n<segment bytes=\"791553\" number=\"1\">part1of1.AbC$d%e@powerpost2000AA.local</segment>\n\
              </segments>\n</file>\n</nzb>\n",
        0,
        1,
    ),
    (
        b"<?xml version=\"1.0\" encoding=\"UTF-8\"?>\r\n<!DOCTYPE nzb PUBLIC \"-//newzBin//DTD NZB 1.1//EN\" \
              \"http://www.newzbin.com/DTD/nzb/nzb-1.1.dtd\">\r\n<nzb xmlns=\"http://www.newzbin.com/DTD/2003/nzb\">\r\n  <head>\r\n    \
              <meta type=\"name\">A name</meta>\r\n    <meta type=\"password\">p&amp;w</meta>\r\n    <meta type=\"category\">TV &gt; HD</meta>\r\n  \
              </head>\r\n\r\n  <file subject=\"&quot;a&quot; yEnc (1/2)\" poster=\"p\" date=\"1\">\r\n    <groups>\r\n      \
              <group>alt.binaries.test</group>\r\n    </groups>\r\n    <segments>\r\n      <segment number=\"2\" bytes=\"716800\">b@ngPost</segment>\r\n      \
              <segment number=\"1\" bytes=\"716800\">a@ngPost</segment>\r\n    </segments>\r\n  </file>\r\n</nzb>\r\n",
        3,
        2,
    ),
    (
        b"<nzb>\n<!-- a -->\n<head></head>\n<file poster='p' date='1' subject='s'>\n<groups/>\n<segments>\n\
              <segment bytes='1' number='1'>\n  a@b\n</segment>\n</segments >\n</file ><!-- b --></nzb >\n<!-- c -->",
        0,
        1,
    ),
    (
        b"<?xml version=\"1.0\"?><nzb xmlns:x='u' version='1.1'><head><meta>x</meta></head><file poster='p'><groups><group>g</group>\
              </groups><segments><segment bytes='1' number='1' x:crc='0'>a@b</segment></segments></file></nzb>",
        1,
        1,
    ),
];

#[test]
fn texts_of_other_programs_are_read(rt: HostRuntime) {
    for (text, metas, segments) in OF_OTHERS {
        let _index = counts(&rt, read(&rt, text), metas, segments);
    }
}

// A text that has a line so many times.
fn lines<R: Abort + AllocGlobal>(
    rt: &R,
    front: &[u8],
    line: &[u8],
    count: u32,
    back: &[u8],
) -> Bytes {
    repeated(rt.alloc(), front, line, count, back).expect(rt, "a text")
}

// Asserts how many files an index has.
fn has_files<R: Abort>(rt: &R, index: Index, files: usize) {
    assert!(rt; index.files.len() == files);
}

#[test]
fn an_index_has_9999_files_at_most(rt: HostRuntime) {
    let most = lines(&rt, b"<nzb>", b"<file/>", 9_999, b"</nzb>");
    has_files(&rt, read(&rt, most.as_slice()), 9_999);
    let more = lines(&rt, b"<nzb>", b"<file/>", 10_000, b"</nzb>");
    refuses(&rt, more.as_slice(), NzbError::Limit(NzbLimit::Files));
}

#[test]
fn a_file_has_262144_segments_at_most(rt: HostRuntime) {
    let front = b"<nzb><file><segments>";
    let segment = b"<segment number=\"1\">a</segment>";
    let back = b"</segments></file></nzb>";
    let most = lines(&rt, front, segment, 262_144, back);
    let _index = counts(&rt, read(&rt, most.as_slice()), 0, 262_144);
    let more = lines(&rt, front, segment, 262_145, back);
    refuses(&rt, more.as_slice(), NzbError::Limit(NzbLimit::Segments));
}
