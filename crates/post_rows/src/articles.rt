// The articles of a file.
ghost use Rattle.poster.specs.Plan.{IsPlanOf};
ghost use Rattle.poster.specs.Settings.{AreSettings};

use crate::fixtures::{Desk, desk_of, has_lines, make, planned_of};
use std::process::Abort;

// The lines of articles, with bars between them.
const SHORT_ARTICLE: &str =
    "From: me@example.org|Newsgroups: alt.binaries.test|Subject: \"d\" yEnc (1/1)|Message-ID: <tok.1of1@example.org>||=ybegin line=128 size=9 name=d|[\\]^_`abc|=yend size=9 crc32=cbf43926";

const THIRD_ARTICLE: &str =
    "From: me@example.org|Newsgroups: misc.test|Subject: \"d\" yEnc (3/3)|Message-ID: <tok.3of3@example.org>||=ybegin part=3 total=3 line=128 size=20 name=d|=ypart begin=19 end=20|..|=yend size=2 part=3 pcrc32=22d813e2";

// The block of the short article.
const SHORT_BLOCK: &str =
    "From: me@example.org\r\nNewsgroups: alt.binaries.test\r\nSubject: \"d\" yEnc (1/1)\r\nMessage-ID: <tok.1of1@example.org>\r\n\r\n=ybegin line=128 size=9 name=d\r\n[\\]^_`abc\r\n=yend size=9 crc32=cbf43926\r\n.\r\n";

#[test]
fn a_short_file_has_one_article(rt: HostRuntime) {
    let desk = desk_of(&rt, planned_of(&rt, b"alt.binaries.test", 750_000, 9));
    let desk = make(&rt, desk, 1, b"123456789");
    let desk = has_lines(&rt, desk, SHORT_ARTICLE);
    assert!(rt; desk.octets == 188);
    assert!(rt; desk.block.as_slice() == SHORT_BLOCK.as_bytes());
}

// Asserts that the line at this place is this one, of so many.
fn has_line<R: Abort>(rt: &R, desk: Desk, lines: usize, place: usize, wanted: &[u8]) -> Desk {
    assert!(rt; desk.lines.len() == lines && place < lines);
    assert!(rt; desk.lines.line(place) == wanted);
    desk
}

// Asserts that a block has so many bytes, and these at a place.
fn has_bytes<R: Abort>(rt: &R, desk: Desk, len: usize, place: usize, wanted: &[u8]) {
    let block = desk.block.as_slice();
    assert!(rt; block.len() == len);
    assert!(rt; block[block.len().min(place)..].starts_with(wanted));
}

#[test]
fn a_line_of_one_dot_is_sent_as_two(rt: HostRuntime) {
    let desk = desk_of(&rt, planned_of(&rt, b"alt.binaries.test", 1, 1));
    let desk = make(&rt, desk, 1, b"\x04");
    assert!(rt; desk.octets == 180);
    let desk = has_line(&rt, desk, 8, 6, b".");
    // One dot more, and the dot and CRLF that end the block.
    has_bytes(&rt, desk, 184, 146, b"\r\n..\r\n=yend");
}

// Asserts that the next article, of the third part, is shorter.
fn third_is_shorter<R: Abort + AllocGlobal>(rt: &R, desk: Desk, file: &[u8]) -> Desk
    requires settings { AreSettings desk.planned.settings }
    requires plan { IsPlanOf desk.planned.settings desk.planned.plan.size desk.planned.plan }
{
    let octets = desk.octets;
    let longest = desk.block.len();
    let desk = make(rt, desk, 3, file);
    assert!(rt; desk.octets < octets && desk.block.len() < longest);
    desk
}

#[test]
fn each_part_has_an_article_of_its_own(rt: HostRuntime) {
    let file: &[u8] = b"123456789123456789\x04\x04";
    let desk = desk_of(&rt, planned_of(&rt, b"misc.test", 9, 20));
    let desk = make(&rt, desk, 1, file);
    let desk = third_is_shorter(&rt, desk, file);
    let _desk = has_lines(&rt, desk, THIRD_ARTICLE);
}

#[test]
fn a_file_without_bytes_has_one_article(rt: HostRuntime) {
    let desk = desk_of(&rt, planned_of(&rt, b"misc.test", 9, 0));
    let desk = make(&rt, desk, 1, b"");
    let desk = has_line(&rt, desk, 7, 5, b"=ybegin line=128 size=0 name=d");
    let _desk = has_line(&rt, desk, 7, 6, b"=yend size=0 crc32=00000000");
}
